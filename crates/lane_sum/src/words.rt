//! The words of a digest.

ghost use Rattle.std.specs.Prelude.{◌≡◌, ◌<◌, ◌++◌};
ghost use Rattle.sha2.specs.Sha256.{sha256};
ghost use Rattle.lane_sum.specs.Totals.{word, word_bytes};

use sha2::{Digest, Sha256};

/// The digest of two pieces, one after the other.
pub(crate) fn hash_two(first: &[u8], second: &[u8]) -> [u8; 32]
    ensures { result ≡ sha256 (first.now ++ second.now) }
{
    let mut hasher = Sha256::new();
    hasher.update(first);
    hasher.update(second);
    hasher.finalize()
}

/// A word of a digest: eight bytes of it, high byte first.
#[tactic(auto, unfolding(crate::specs::Totals::word))]
pub(crate) fn word_at(digest: &[u8; 32], index: usize) -> u64
    requires { index < 4 }
    ensures { result ≡ word index digest.now }
{
    let mut bytes = [0; 8];
    bytes.copy_from_slice(&digest[8 * index..8 * index + 8]);
    u64::from_be_bytes(bytes)
}

/// A number in eight bytes, high byte first.
#[tactic(auto, unfolding(crate::specs::Totals::word_bytes))]
pub(crate) fn eight_bytes(number: u64) -> [u8; 8]
    ensures { result ≡ word_bytes number }
{
    number.to_be_bytes()
}
