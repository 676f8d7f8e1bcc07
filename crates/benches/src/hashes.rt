//! What is hashed, by its name.

use crate::{digests, keys, lanes};
use lms_core::Height;
use std::alloc::Global;
use std::thread::Threads;

// The front of what came out, as a number.
fn front_of(bytes: &[u8; 32]) -> u64 {
    u64::from_be_bytes([
        bytes[0], bytes[1], bytes[2], bytes[3], bytes[4], bytes[5], bytes[6], bytes[7],
    ])
}

/// What comes out of so many rounds; none where nothing has that name, or for want of memory.
pub(crate) fn run<R: Threads + Sync>(
    rt: &R,
    alloc: Global,
    name: &str,
    rounds: u32,
) -> Option<u64> {
    match name {
        "blocks" => Some(front_of(&digests::blocks(rounds))),
        "rows" => Some(front_of(&digests::rows(rounds))),
        "chains" => Some(front_of(&lanes::chains(rounds))),
        "lists" => Some(front_of(&lanes::lists(rounds))),
        "make" => Some(keys::make(rounds)),
        "make-on" => keys::make_on(rt, alloc, Height::H5, rounds),
        "make10-on" => keys::make_on(rt, alloc, Height::H10, rounds),
        "sign" => keys::sign(alloc, rounds),
        "verify" => keys::verify(alloc, rounds),
        _ => None,
    }
}
