//! Digests and nothing else: what the work of keys and of rows is measured against. Each digest stands in the
//! message behind it.

use sha2::{Digest, Sha256};

// The last of so many digests over messages of 55 bytes, which is one block each.
pub(crate) fn blocks(rounds: u32) -> [u8; 32] {
    let mut message = [0; 55];
    let mut digest = [0; 32];
    for _ in 0..rounds {
        message[23..].copy_from_slice(&digest);
        digest = Sha256::digest(message.as_slice());
    }
    digest
}

// A digest over as many bytes as an open namespace signs for a grant: its key, and 35 bytes.
fn grant_digest(before: &[u8; 32]) -> [u8; 32] {
    let mut message = [0; 68];
    message[..32].copy_from_slice(before);
    Sha256::digest(message.as_slice())
}

// The digest of the whole message, or of all but the last two bytes.
fn front_digest(message: &[u8; 154], is_short: bool) -> [u8; 32] {
    if is_short {
        Sha256::digest(&message[..152])
    } else {
        Sha256::digest(message.as_slice())
    }
}

// A digest over as many bytes as an open writer signs for row i: a key, a letter, and an entry of 120 bytes,
// or of 118 where it has one component alone.
fn entry_digest(before: &[u8; 32], i: u32) -> [u8; 32] {
    let mut message = [0; 154];
    message[..32].copy_from_slice(before);
    front_digest(&message, i % 50 == 49)
}

// The last of the digests that so many rows of the generator need, two for each row.
pub(crate) fn rows(rounds: u32) -> [u8; 32] {
    let mut digest = [0; 32];
    for i in 0..rounds {
        digest = entry_digest(&grant_digest(&digest), i);
    }
    digest
}
