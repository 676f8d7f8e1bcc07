//! Keys of height 5, and of height 10 on all processors: made, signed with, and their signatures verified.

use lms_core::{Height, LmsKey, PeerScheme, reserve_keys};
use scheme_core::{Signer, Verify};
use spelling::NoMemory;
use std::alloc::Global;
use std::collections::BTreeMap;
use std::thread::Threads;
use willow_outside::{Shelf, SureShelf};
use willow_path::UserKey;

// What is signed.
const MESSAGE: &[u8; 32] = b"a message of the length of a sum";

// The name of the key's file.
const NAME: &str = "key";

// A key of a height.
fn key_of(height: Height, seed: u32) -> LmsKey {
    let mut bytes = [7; 32];
    bytes[..4].copy_from_slice(&seed.to_be_bytes());
    LmsKey::make(height, [9; 16], bytes)
}

// The last byte of a key.
fn last_byte(key: &UserKey) -> u64 {
    u64::from(key.to_bytes()[32])
}

// Makes so many keys, each with its tree.
pub(crate) fn make(rounds: u32) -> u64 {
    let mut out = 0;
    for round in 0..rounds {
        out ^= last_byte(&key_of(Height::H5, round).user_key());
    }
    out
}

// Makes so many keys of a height, each with its tree on all processors.
pub(crate) fn make_on<R: Threads + Sync>(
    rt: &R,
    alloc: Global,
    height: Height,
    rounds: u32,
) -> Option<u64> {
    let mut out = 0;
    for round in 0..rounds {
        out ^= last_byte(&key_of(height, round).user_key_on(rt, alloc).ok()?);
    }
    Some(out)
}

// The file of the key with no index used.
fn key_file(alloc: Global) -> Result<Vec<u8>, NoMemory> {
    let mut file = Vec::new(alloc);
    key_of(Height::H5, 0).encode(&mut file)?;
    Ok(file)
}

// Signs once with the next index of the key's file.
fn sign_once(alloc: Global, shelf: &mut SureShelf) -> Option<Vec<u8>> {
    let mut signers = reserve_keys(alloc, shelf, NAME, 1).ok()?;
    let mut signer = signers.pop()?;
    signer.sign(alloc, MESSAGE).ok()
}

// Makes so many signatures, and answers how many bytes they have. A key's file is put back as new when its 32
// indices are used, which only a benchmark may do.
pub(crate) fn sign(alloc: Global, rounds: u32) -> Option<u64> {
    let file = key_file(alloc).ok()?;
    let mut shelf = SureShelf::new(alloc, BTreeMap::new(alloc));
    let mut out = 0u64;
    for round in 0..rounds {
        if round % 32 == 0 {
            shelf.put(NAME, &file).ok()?;
        }
        out = out.saturating_add(sign_once(alloc, &mut shelf)?.len() as u64);
    }
    Some(out)
}

// Makes one signature, verifies it so often, and answers how often it was accepted.
pub(crate) fn verify(alloc: Global, rounds: u32) -> Option<u64> {
    let file = key_file(alloc).ok()?;
    let mut shelf = SureShelf::new(alloc, BTreeMap::new(alloc));
    shelf.put(NAME, &file).ok()?;
    let signature = sign_once(alloc, &mut shelf)?;
    let key = key_of(Height::H5, 0).user_key();
    let mut out = 0u64;
    for _ in 0..rounds {
        if PeerScheme.verify_user(&key, MESSAGE, &signature) {
            out = out.saturating_add(1);
        }
    }
    Some(out)
}
