//! Capabilities and rows against bytes made elsewhere.

use crate::tables::{joined, shows, spells};
use cap_codec::{RawRow, RawRows, SpelledRow, decode_capability, read_capability, read_frames};
use mc_cap::Capability;
use spelling::{End, Input, Unread};
use std::alloc::Global;
use willow_entry::{Row, RowForm, SharedRow};

// The capability in front of the bytes.
fn capability_in(alloc: Global, bytes: &[u8]) -> Option<Capability> {
    let (capability, _taken) = decode_capability(alloc, bytes).ok()?;
    Some(capability)
}

// Whether the capability that the words spell is spelled so again.
fn capability_again(alloc: Global, words: &str) -> Option<bool> {
    let bytes = joined(alloc, words)?;
    let mut spelled = Vec::new(alloc);
    capability_in(alloc, &bytes)?.encode(&mut spelled).ok()?;
    Some(spelled.as_slice() == bytes.as_slice())
}

// The bytes of a capability with another byte at this place.
fn with(alloc: Global, at: usize, byte: u8) -> Option<Vec<u8>> {
    let mut bytes = joined(alloc, "DELEGATED")?;
    *bytes.get_mut(at)? = byte;
    Some(bytes)
}

// Whether no capability is in front of the bytes with another byte at this place.
fn is_loose(alloc: Global, at: usize, byte: u8) -> Option<bool> {
    let bytes = with(alloc, at, byte)?;
    Some(capability_in(alloc, &bytes).is_none())
}

#[test]
fn capabilities_are_read_and_spelled(rt: HostRuntime) {
    assert_eq!(rt; capability_again(rt.alloc(), "DELEGATED"), Some(true));
}

#[test]
fn bytes_that_are_no_capability(rt: HostRuntime) {
    for (at, byte) in [
        (0, 4),
        (1, 2),
        (67, 2),
        (68, 2),
        (102, 255),
        (111, 2),
        (145, 6),
    ] {
        assert_eq!(rt; is_loose(rt.alloc(), at, byte), Some(true));
    }
}

// Why no capability is read from the first 146 bytes, of which the last begins the signature's length.
fn unread_with(alloc: Global, byte: u8) -> Option<Unread> {
    let bytes = with(alloc, 145, byte)?;
    read_capability(alloc, &mut Input::new(bytes.get(..146)?)).err()
}

#[test]
fn a_length_is_judged_by_its_first_byte(rt: HostRuntime) {
    for (byte, unread) in [(5, Unread::Part), (6, Unread::Wrong)] {
        assert_eq!(rt; unread_with(rt.alloc(), byte), Some(unread));
    }
}

// The row of the bytes.
fn row_of(alloc: Global, bytes: &[u8]) -> Option<RawRow> {
    RawRow::decode(alloc, bytes).ok()
}

// Whether the row is spelled so, and its entry has 117 of the bytes.
fn has_bytes<R: SharedRow>(row: &R, bytes: &[u8]) -> bool {
    bytes.get(..117) == Some(row.entry_bytes()) && bytes.get(117..) == Some(row.token_bytes())
}

// Whether a copy of the row, made as of any row, is spelled so.
fn copy_has_bytes<R: SharedRow>(row: &R, bytes: &[u8]) -> Option<bool> {
    let copy = row.copy().ok()?;
    Some(has_bytes(&copy, bytes))
}

// Whether the row that is read as one of its form has the bytes that the words spell.
fn reads(alloc: Global, words: &str) -> Option<bool> {
    let bytes = joined(alloc, words)?;
    match RawRows::read(alloc, &bytes) {
        Ok(Some(row)) => Some(has_bytes(&row, &bytes)),
        _ => None,
    }
}

// Whether both copies of the row have the bytes.
fn copies(row: &RawRow, bytes: &[u8]) -> Option<bool> {
    let copy = RawRow::copy(row).ok()?;
    Some(has_bytes(&copy, bytes) && copy_has_bytes(row, bytes)?)
}

// Whether the row that keeps its token as bytes, and both its copies, have the bytes, and the entry its time.
fn is_kept(row: &SpelledRow, time: u64, bytes: &[u8]) -> Option<bool> {
    row.known();
    let copy = SpelledRow::copy(row).ok()?;
    Some(has_bytes(&copy, bytes) && copy.entry().timestamp == time)
}

// Whether the row, made to keep its token as bytes, has the bytes.
fn keeps(row: RawRow, bytes: &[u8]) -> Option<bool> {
    let time = row.entry().timestamp;
    let row = row.into_spelled();
    Some(has_bytes(&row, bytes) && copy_has_bytes(&row, bytes)? && is_kept(&row, time, bytes)?)
}

// Whether a copy of the row's token is spelled as it stands behind the entry.
fn copies_token(alloc: Global, row: &RawRow, bytes: &[u8]) -> Option<bool> {
    let mut spelled = Vec::new(alloc);
    row.token().copy().ok()?.encode(&mut spelled).ok()?;
    Some(bytes.get(117..) == Some(spelled.as_slice()))
}

// Whether the row that the words spell, its copies and those of its token have these bytes.
fn is_copied(alloc: Global, words: &str) -> Option<bool> {
    let bytes = joined(alloc, words)?;
    let row = row_of(alloc, &bytes)?;
    Some(copies(&row, &bytes)? && copies_token(alloc, &row, &bytes)? && keeps(row, &bytes)?)
}

#[test]
fn rows_are_read_and_spelled(rt: HostRuntime) {
    assert_eq!(rt; reads(rt.alloc(), "ROW"), Some(true));
}

#[test]
fn rows_and_tokens_are_copied(rt: HostRuntime) {
    for words in ["ROW", "OWNED_ON"] {
        assert_eq!(rt; is_copied(rt.alloc(), words), Some(true));
    }
}

// How many frames the bytes are, or where the first stands that is none.
fn frames_in(alloc: Global, bytes: &[u8]) -> Option<Result<usize, usize>> {
    match read_frames(alloc, bytes) {
        Ok(rows) => Some(Ok(rows.len())),
        Err(End::Refused(bad)) => Some(Err(bad.at)),
        Err(End::NoMemory) => None,
    }
}

// Whether the line, words of bytes and what they are, is right.
fn has_frames(alloc: Global, line: &str) -> Option<bool> {
    let (words, due) = line.split_once(": ")?;
    let bytes = joined(alloc, words)?;
    shows(alloc, &frames_in(alloc, &bytes)?, due)
}

const FRAMES: &str = ": Ok(0)
000000db ROW: Ok(1)
000000db ROW 000000db ROW: Ok(2)
000000db ROW 00000003aabbcc: Err(223)
000000db ROW 00000000 ROW: Err(223)
000000db ROW 000000da ROW: Err(223)
000000db ROW 00020001 ROW: Err(223)
000000db ROW 000000: Err(223)
000000db 00112233445566778899: Err(0)
00020001: Err(0)";

#[test]
fn frames_one_after_the_other(rt: HostRuntime) {
    for line in FRAMES.lines() {
        assert_eq!(rt; has_frames(rt.alloc(), line), Some(true), "{line}");
    }
}
