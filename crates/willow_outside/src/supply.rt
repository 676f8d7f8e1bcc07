//! Bytes in memory that are given from the front.

ghost use Rattle.std.specs.Prelude.{◌≡◌, ◌<◌, ◌≤◌, ℕ, List, [], ◌++◌, length, take, drop, min};
ghost use Rattle.willow_outside.specs.Counts.{CountsEnd};
ghost use Rattle.willow_outside.specs.Supplied.{Supplied};

use std::marker::Model;

/// Bytes, and how many of them were given.
#[derive(Drop)]
pub(crate) struct Supply {
    bytes: Vec<u8>,
    at: usize,
}

impl Model for Supply {
    ghost Value = { Supplied };

    ghost view = { λ s. record { given = take s.at s.bytes.items; left = drop s.at s.bytes.items } };

    ghost invariant = { λ s. s.at ≤ length s.bytes.items };
}

impl Supply {
    pub(crate) fn new(bytes: Vec<u8>) -> Supply
        ensures { result ≡ record { given = []; left = bytes.items } }
    {
        Supply { bytes, at: 0 }
    }

    /// Puts the next bytes at the front of `buf`, at most `most`, and answers their number.
    pub(crate) fn give(&mut self, buf: &mut [u8], most: usize) -> usize
        requires { 1 ≤ most }
        ensures bound { result ≤ length buf.new }
        ensures count { result ≡ min (min (length buf.new) most) (length self.old.left) }
        ensures bytes { self.old.left ≡ take result buf.new ++ self.new.left }
        ensures given { self.new.given ≡ self.old.given ++ take result buf.new }
        ensures none { result ≡ 0 → 0 < length buf.new → self.new.left ≡ [] }
    {
        let n = buf.len().min(most).min(self.bytes.len() - self.at);
        buf[..n].copy_from_slice(&self.bytes[self.at..self.at + n]);
        self.at += n;
        n
    }
}

/// Counts the end where a read with room gave nothing.
pub(crate) fn count_end(ends: &mut u64, given: usize, buf: &[u8])
    ensures { CountsEnd ends.old ends.new given buf.now }
{
    if given == 0 && !buf.is_empty() {
        *ends = ends.saturating_add(1);
    }
}
