//! The leaf of a row: the four words of the digest of its bytes.

ghost use Rattle.std.specs.Prelude.{◌≡◌, [], ◌∷◌, map};
ghost use Rattle.sha_lanes.specs.Message.{digest_of};
ghost use Rattle.lane_sum.specs.Totals.{leaf_of, told, total, total_by, word};

use crate::lanes::Lanes;
use crate::words::{hash_two, word_at};
use sha_lanes::{Message, sha256_all};
use std::marker::Model;

/// The leaf of a row in 32 bytes: the four words of the SHA-256 digest of its two strings, each of eight bytes, high byte
/// first. A contract sees the total of that row alone.
#[derive(Clone, Copy)]
pub struct Leaf {
    a: u64,
    b: u64,
    c: u64,
    d: u64,
}

impl Model for Leaf {
    ghost use Rattle.lane_sum.specs.declared.lanes.Lanes.{Lanes};

    ghost Value = { Lanes };

    ghost view = { λ l. record { count = 1; a = l.a; b = l.b; c = l.c; d = l.d } };

    ghost inverse = { λ t. record { a = t.a; b = t.b; c = t.c; d = t.d } };
}

impl Leaf {
    /// The leaf of a row, told as two strings of bytes: that of the digest of `first` and then `second`.
    pub fn new(first: &[u8], second: &[u8]) -> Leaf
        ensures leaf { result ≡ leaf_of (first.now, second.now) }
        ensures total { result ≡ total ((first.now, second.now) ∷ []) }
    {
        Leaf::of_digest(&hash_two(first, second))
    }

    /// The leaves of four rows, each told as the two pieces of a message. They are hashed side by side where they have
    /// equally many blocks.
    pub fn four(
        first: &Message<'_>,
        second: &Message<'_>,
        third: &Message<'_>,
        fourth: &Message<'_>,
    ) -> [Leaf; 4]
        ensures { result ≡ map (λ row. total_by told (row ∷ [])) (first.now ∷ second.now ∷ third.now ∷ fourth.now ∷ []) }
    {
        let mut digests = [[0; 32]; 4];
        sha256_all(&[*first, *second, *third, *fourth], &mut digests);
        let [one, two, three, four] = digests;
        [
            Leaf::of_message(first, &one),
            Leaf::of_message(second, &two),
            Leaf::of_message(third, &three),
            Leaf::of_message(fourth, &four),
        ]
    }

    /// The total of the row.
    pub fn total(&self) -> Lanes
        ensures { result ≡ self.now }
    {
        let Leaf { a, b, c, d } = *self;
        Lanes {
            count: 1,
            a,
            b,
            c,
            d,
        }
    }

    // The leaf of a row that has this digest.
    fn of_message(row: &Message<'_>, digest: &[u8; 32]) -> Leaf
        requires { digest.now ≡ digest_of row.now }
        ensures { result ≡ total_by told (row.now ∷ []) }
    {
        let _ = row;
        Leaf::of_digest(digest)
    }

    // The words of a digest.
    fn of_digest(digest: &[u8; 32]) -> Leaf
        ensures { result ≡ record { count = 1; a = word 0 digest.now; b = word 1 digest.now; c = word 2 digest.now; d = word 3 digest.now } }
    {
        Leaf {
            a: word_at(digest, 0),
            b: word_at(digest, 1),
            c: word_at(digest, 2),
            d: word_at(digest, 3),
        }
    }
}
