//! Bytes in memory that never fail to come.

ghost use Rattle.std.specs.Prelude.{◌≡◌, Some, Ok, length, min};
ghost use Rattle.std.specs.Io.{ReadsAtMost};
ghost use Rattle.std.specs.Io.KnownBytes.{ReadConsumes};
ghost use Rattle.willow_outside.specs.Counts.{EndHasCause};

use crate::supply::{Supply, count_end};
use crate::{Fault, Source};
use std::alloc::Global;
use std::marker::Model;

/// A source of given bytes without faults.
#[derive(Drop)]
pub struct SureSource {
    supply: Supply,
    ends: u64,
}

impl Model for SureSource {
    ghost use Rattle.willow_outside.specs.InMemory.{FaultlessSource};

    ghost Value = { FaultlessSource };

    ghost view = { λ s. record { left = s.supply.left; ends = s.ends } };
}

impl SureSource {
    /// Gives the bytes `left`, as many a call as there is room for.
    pub fn new(_alloc: Global, left: Vec<u8>) -> SureSource
        ensures value { result ≡ record { left = left.items; ends = 0 } }
        ensures facts { ⟦<SureSource as Source>⟧.facts result ≡ record { left = Some left.items; faults = 0; ends = 0 } }
    {
        SureSource {
            supply: Supply::new(left),
            ends: 0,
        }
    }
}

impl Source for SureSource {
    ghost facts = { λ s. record { left = Some s.left; faults = 0; ends = s.ends } };

    /// Gives as many bytes as there is room for and are left.
    fn read(&mut self, buf: &mut [u8]) -> Result<usize, Fault>
        ensures answer { result ≡ Ok (min (length buf.new) (length self.old.left)) }
        ensures bound { ReadsAtMost result buf.new }
        ensures bytes { ReadConsumes (Some self.old.left) (Some self.new.left) result buf.new }
        ensures end { EndHasCause self.old.ends self.new.ends result buf.new }
    {
        let n = self.supply.give(buf, usize::MAX);
        count_end(&mut self.ends, n, buf);
        Ok(n)
    }
}
