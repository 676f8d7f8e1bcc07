//! Stops at each call of a disk while a log is begun and a row is kept in it.

use crate::files::{Found, begun, copies, joined, keep, opened_bytes, row};
use std::alloc::Global;
use willow_outside::{DiskCall, MemDisk};

// The disk of a log that is begun in a file of these bytes, and in which a row is kept.
fn kept(alloc: Global, first: &[u8]) -> Option<MemDisk> {
    let first = Vec::from_slice(alloc, first).ok()?;
    let mut keeper = begun(alloc, MemDisk::new(alloc, first, Vec::new(alloc))).ok()??;
    let row = row(alloc)?;
    let slice = copies(alloc, &row, 1)?;
    let _number = keep(&mut keeper, &slice)?.ok()?;
    Some(keeper.into_disk())
}

// A write over bytes: those before it, its place, and what is written.
#[derive(Clone, Copy)]
struct Write<'a> {
    old: &'a [u8],
    at: usize,
    piece: &'a [u8],
}

// An image that a crash during the write may leave: so many bytes are there, so many are others, and the rest is as it was.
fn torn(alloc: Global, write: Write, there: usize, others: &[u8]) -> Option<Vec<u8>> {
    let mut new = Vec::from_slice(alloc, write.old.get(..write.at)?).ok()?;
    new.extend_from_slice(write.piece.get(..there)?).ok()?;
    new.extend_from_slice(others).ok()?;
    if let Some(behind) = write.old.get(new.len()..) {
        new.extend_from_slice(behind).ok()?;
    }
    Some(new)
}

// Whether the image holds no log or no row, or, where the row stands behind its gate, the row just where that is open.
fn is_whole(alloc: Global, image: Vec<u8>, stands: bool) -> bool {
    let is_open = stands && image.get(38) == Some(&1);
    match opened_bytes(alloc, image) {
        Found::Absent | Found::Rows(0) => !is_open,
        Found::Rows(1) => is_open,
        _ => false,
    }
}

// Whether the images are so in which so many bytes are there, and the others are this byte, or are not there.
fn are_whole(alloc: Global, write: Write, there: usize, byte: u8, stands: bool) -> Option<bool> {
    let others = vec![in alloc; byte; write.piece.len().saturating_sub(there)].ok()?;
    let short = torn(alloc, write, there, &[])?;
    let long = torn(alloc, write, there, &others)?;
    Some(is_whole(alloc, short, stands) && is_whole(alloc, long, stands))
}

// Whether images are so that a crash during the write may leave: each front of what is written, and behind it closed gates,
// open ones or other bytes, or what was there.
fn all_are_whole(alloc: Global, write: Write, stands: bool) -> Option<bool> {
    for there in 0..write.piece.len() + 1 {
        for byte in [0, 1, 7] {
            if !are_whole(alloc, write, there, byte, stands)? {
                return Some(false);
            }
        }
    }
    Some(true)
}

// The bytes behind a call, where all images are whole that a crash during it may leave. The row stands once it was written
// behind the closed gate, at 39.
fn after(alloc: Global, old: Vec<u8>, call: &DiskCall) -> Option<Vec<u8>> {
    let DiskCall::WriteAt { at, bytes, .. } = call else {
        return Some(old);
    };
    let write = Write {
        old: &old,
        at: *at as usize,
        piece: bytes,
    };
    if !all_are_whole(alloc, write, *at == 38)? {
        return None;
    }
    torn(alloc, write, bytes.len(), &[])
}

// What is found behind all calls, over a file that the words spell, where each stop before leaves it whole.
fn stopped(alloc: Global, words: &str) -> Option<Found> {
    let mut bytes = joined(alloc, words)?;
    let disk = kept(alloc, &bytes)?;
    for call in disk.calls() {
        bytes = after(alloc, bytes, call)?;
    }
    Some(opened_bytes(alloc, bytes))
}

#[test]
fn stops_in_an_empty_file(rt: HostRuntime) {
    assert!(rt; stopped(rt.alloc(), "") == Some(Found::Rows(1)));
}

#[test]
fn stops_in_a_file_of_other_bytes(rt: HostRuntime) {
    // A log with a row whose first gate is closed.
    let words =
        "00574c4731004e4e4e4e4e4e4e4e4e4e4e4e4e4e4e4e4e4e4e4e4e4e4e4e4e4e4e4e4e4e4e4e 01 000000df ROW 00";
    assert!(rt; stopped(rt.alloc(), words) == Some(Found::Rows(1)));
}
