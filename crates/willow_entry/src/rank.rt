//! The rank of an entry: what decides which of two entries is newer.

ghost use Rattle.std.specs.Prelude.{◌≡◌};
ghost use Rattle.std.specs.Ordering.{nat_cmp, ordering_then};
ghost use Rattle.willow_entry.specs.Rank.{bytes_cmp, rank_cmp};

use std::cmp::Ordering;
use std::marker::Model;
use willow_path::Digest;

/// A timestamp, the digest of a payload and its length. A contract sees these three.
#[derive(Drop)]
pub struct Rank<'a> {
    timestamp: u64,
    digest: &'a Digest,
    length: u64,
}

impl<'a> Model for Rank<'a> {
    ghost use Rattle.willow_entry.specs.Rank.{RankValue};

    ghost Value = { RankValue };

    ghost view = { λ r. record { timestamp = r.timestamp; digest = r.digest.now.0; length = r.length } };
}

impl<'a> Rank<'a> {
    /// The rank of these three.
    pub fn new(timestamp: u64, digest: &'a Digest, length: u64) -> Rank<'a>
        ensures { result ≡ record { timestamp = timestamp; digest = digest.now.0; length = length } }
    {
        Rank {
            timestamp,
            digest,
            length,
        }
    }
}

/// How two ranks are ordered: by timestamp, then by digest, then by payload length.
#[tactic(auto, unfolding(crate::specs::Rank::rank_cmp))]
pub fn by_rank(r: &Rank, s: &Rank) -> Ordering
    ensures { result ≡ rank_cmp r.now s.now }
{
    match r.timestamp.cmp(&s.timestamp) {
        Ordering::Equal => by_payload(r, s),
        order => order,
    }
}

// How two ranks are ordered by digest, then by payload length.
fn by_payload(r: &Rank, s: &Rank) -> Ordering
    ensures { result ≡ ordering_then (bytes_cmp r.now.digest s.now.digest) (nat_cmp r.now.length s.now.length) }
{
    match r.digest.cmp(s.digest) {
        Ordering::Equal => r.length.cmp(&s.length),
        order => order,
    }
}
