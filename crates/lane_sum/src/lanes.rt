//! The total of a set of rows, in a fixed space.

ghost use Rattle.std.specs.Prelude.{◌≡◌, [], ◌∷◌};
ghost use Rattle.lane_sum.specs.Totals.{leaf_of, total, sum_of, rest_of, finish_of};

use crate::leaf::Leaf;
use crate::words::eight_bytes;
use sha2::{Digest, Sha256};

/// What is known of a set of rows: their number, and for each of the four words of a digest the sum of it
/// over the rows. Each is modulo 2^64.
#[derive(Clone, Copy, Debug, PartialEq, Eq)]
pub struct Lanes {
    /// The number of rows.
    pub count: u64,
    /// The sum of the first words.
    pub a: u64,
    /// The sum of the second words.
    pub b: u64,
    /// The sum of the third words.
    pub c: u64,
    /// The sum of the fourth words.
    pub d: u64,
}

impl Lanes {
    /// The total of no row.
    pub fn zero() -> Lanes
        ensures { result ≡ total [] }
    {
        Lanes {
            count: 0,
            a: 0,
            b: 0,
            c: 0,
            d: 0,
        }
    }

    /// The total of one row, told as two strings of bytes: one, and the four words of the SHA-256 digest of
    /// `first` and then `second`, each of eight bytes, high byte first.
    pub fn leaf(first: &[u8], second: &[u8]) -> Lanes
        ensures leaf { result ≡ leaf_of (first.now, second.now) }
        ensures total { result ≡ total ((first.now, second.now) ∷ []) }
    {
        Leaf::new(first, second).total()
    }

    /// The total of the rows of both: field by field the sum modulo 2^64. `less` undoes it.
    pub fn add(&self, other: &Lanes) -> Lanes
        ensures sum { result ≡ sum_of self.now other.now }
        ensures undone { rest_of result other.now ≡ self.now }
    {
        let (left, right) = (*self, *other);
        Lanes {
            count: left.count.wrapping_add(right.count),
            a: left.a.wrapping_add(right.a),
            b: left.b.wrapping_add(right.b),
            c: left.c.wrapping_add(right.c),
            d: left.d.wrapping_add(right.d),
        }
    }

    /// The total that is left when the rows of `other` are taken away: field by field the difference modulo
    /// 2^64. It undoes `add`.
    pub fn less(&self, other: &Lanes) -> Lanes
        ensures rest { result ≡ rest_of self.now other.now }
        ensures undone { sum_of result other.now ≡ self.now }
    {
        let (whole, part) = (*self, *other);
        Lanes {
            count: whole.count.wrapping_sub(part.count),
            a: whole.a.wrapping_sub(part.a),
            b: whole.b.wrapping_sub(part.b),
            c: whole.c.wrapping_sub(part.c),
            d: whole.d.wrapping_sub(part.d),
        }
    }

    /// The fingerprint: the SHA-256 digest of the five fields in their order, each as eight bytes, high byte
    /// first.
    pub fn finish(&self) -> [u8; 32]
        ensures { result ≡ finish_of self.now }
    {
        let mut hasher = Sha256::new();
        hasher.update(&eight_bytes(self.count));
        hasher.update(&eight_bytes(self.a));
        hasher.update(&eight_bytes(self.b));
        hasher.update(&eight_bytes(self.c));
        hasher.update(&eight_bytes(self.d));
        hasher.finalize()
    }
}
