//! One-time public keys, as the signatures tell them.

ghost use Rattle.std.specs.Prelude.{◌≡◌, length};
ghost use Rattle.lms_core.specs.OneTime.{message_hash, checksum, digits, chain_ends, one_time_key, key_told};

use crate::bytes::{join_into, two_bytes};
use crate::hashing::{D_MESG, hash_three, input_front};
use crate::key_chains::{key_of_ends, told_chains};
use sha_lanes::run_chains;

/// How many chains a one-time key has: one for each byte of a hash and two for its checksum.
pub(crate) const CHAINS: usize = 34;

/// How far the bytes of a hash are below 255, together.
#[tactic(auto, unfolding(crate::specs::OneTime::checksum))]
fn checksum_of(hash: &[u8; 32]) -> u16
    ensures { result ≡ checksum hash.now }
{
    let mut sum = 0;
    'bytes: for byte in hash {
        sum += 255 - u16::from(*byte);
    }
    sum
}

/// The places of a message in the chains.
#[tactic(auto, unfolding(crate::specs::OneTime::digits, crate::specs::OneTime::message_hash))]
pub(crate) fn digits_of(
    identifier: &[u8; 16],
    index: u32,
    randomizer: &[u8; 32],
    message: &[u8],
) -> [u8; 34]
    ensures { result ≡ digits (message_hash identifier.now index randomizer.now message.now) }
{
    let hash = hash_three(&input_front(identifier, index, D_MESG), randomizer, message);
    let mut places = [0; CHAINS];
    join_into(&mut places, &hash, &two_bytes(checksum_of(&hash)));
    places
}

/// The one-time public key of the chains that have these values at these digits.
fn key_of_values(identifier: &[u8; 16], index: u32, digits: &[u8; 34], values: &[u8]) -> [u8; 32]
    requires { length values.now ≡ 1088 }
    ensures { result ≡ one_time_key identifier.now index (chain_ends identifier.now index 0 digits.now values.now) }
{
    let mut chains = told_chains(identifier, index, digits, values);
    run_chains(&mut chains);
    key_of_ends(identifier, index, &chains)
}

/// The one-time public key that a signature's randomizer and chain values tell for a message.
#[tactic(auto, unfolding(crate::specs::OneTime::key_told))]
pub(crate) fn told_key(
    identifier: &[u8; 16],
    index: u32,
    randomizer: &[u8; 32],
    values: &[u8],
    message: &[u8],
) -> [u8; 32]
    requires { length values.now ≡ 1088 }
    ensures { result ≡ key_told identifier.now index randomizer.now values.now message.now }
{
    let digits = digits_of(identifier, index, randomizer, message);
    key_of_values(identifier, index, &digits, values)
}
