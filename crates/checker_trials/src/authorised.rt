//! Rows one by one.

use crate::rows::{has_bytes, namespace, row};
use crate::texts;
use auth_entry::{AuthorisedEntry, RowRefusal, authorise};
use mc_cap::ChainRefusal;
use scheme_core::OpenScheme;
use spelling::End;
use std::alloc::Global;
use willow_entry::{Row, SharedRow};

// Why the row is refused in the namespace of this letter, where it is.
fn refusal(alloc: Global, letter: u8, text: &str) -> Option<Option<RowRefusal>> {
    match authorise(alloc, &OpenScheme, &namespace(letter)?, row(alloc, text)?) {
        Ok(_) => Some(None),
        Err(End::Refused(refusal)) => Some(Some(refusal)),
        Err(End::NoMemory) => None,
    }
}

static AUTHORISED: [&str; 3] = [texts::PLAIN, texts::DELEGATED, texts::BY_RECEIVER];

#[test]
fn authorised_rows(rt: HostRuntime) {
    let alloc = rt.alloc();
    for text in &AUTHORISED {
        assert!(rt; refusal(alloc, b'N', text) == Some(None));
    }
}

static REFUSED: [(u8, &str, RowRefusal); 8] = [
    (b'O', texts::PLAIN, RowRefusal::WrongNamespace),
    (b'N', texts::OTHER, RowRefusal::WrongNamespace),
    (b'N', texts::READING, RowRefusal::NotWrite),
    (
        b'N',
        texts::OWNED,
        RowRefusal::Chain(ChainRefusal::NotOwned),
    ),
    (
        b'O',
        texts::IN_OWNED,
        RowRefusal::Chain(ChainRefusal::NotCommunal),
    ),
    (b'N', texts::OUTSIDE, RowRefusal::OutsideGrant),
    (b'N', texts::UNSIGNED, RowRefusal::BadEntrySignature),
    (b'N', texts::BY_GIVER, RowRefusal::BadEntrySignature),
];

#[test]
fn the_first_refusal_is_told(rt: HostRuntime) {
    let alloc = rt.alloc();
    for (letter, text, wanted) in &REFUSED {
        assert!(rt; refusal(alloc, *letter, text) == Some(Some(*wanted)));
    }
}

// Whether a row has the bytes of this text, of which its entry has 117.
fn has_text<R: SharedRow>(alloc: Global, row: &R, text: &str) -> bool {
    has_bytes(alloc, row, text, 117)
}

// Whether an authorised row has those bytes, and tells its namespace O.
fn is_of(alloc: Global, entry: &AuthorisedEntry<OpenScheme>, text: &str) -> Option<bool> {
    Some(has_text(alloc, entry, text) && entry.namespace() == namespace(b'O')?)
}

// The same of a copy of it.
fn copy_is_of(alloc: Global, entry: &AuthorisedEntry<OpenScheme>, text: &str) -> Option<bool> {
    is_of(alloc, &entry.copy().ok()?, text)
}

// Whether its copy as a row has those bytes.
fn copied_row_is_of(
    alloc: Global,
    entry: &AuthorisedEntry<OpenScheme>,
    text: &str,
) -> Option<bool> {
    Some(has_text(alloc, &Row::copy(entry).ok()?, text))
}

// Whether an authorised row in O and its copies do so.
fn copies_are_of(alloc: Global, text: &str) -> Option<[Option<bool>; 3]> {
    let row = row(alloc, text)?;
    let entry = authorise(alloc, &OpenScheme, &namespace(b'O')?, row).ok()?;
    Some([
        is_of(alloc, &entry, text),
        copy_is_of(alloc, &entry, text),
        copied_row_is_of(alloc, &entry, text),
    ])
}

#[test]
fn an_authorised_entry_is_copied(rt: HostRuntime) {
    assert!(rt; copies_are_of(rt.alloc(), texts::OWNED_ON) == Some([Some(true); 3]));
}
