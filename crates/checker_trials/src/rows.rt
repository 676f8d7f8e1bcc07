//! Rows of the table, and what is due of them.

use auth_entry::{AuthorisedEntry, Checker, RowRefusal};
use cap_codec::RawRow;
use scheme_core::{Scheme, Verify};
use std::alloc::Global;
use std::thread::Threads;
use willow_entry::Row;
use willow_path::NamespaceKey;

/// What is due of a row: why it is refused, or how many bytes its entry has.
pub(crate) type Due = Result<usize, RowRefusal>;

/// The namespace of this letter: N is communal, O is not.
pub(crate) fn namespace(letter: u8) -> Option<NamespaceKey> {
    let mut bytes = [letter; 33];
    bytes[0] = 0;
    NamespaceKey::from_bytes(bytes)
}

/// The row of these hexadecimal digits.
pub(crate) fn row(alloc: Global, text: &str) -> Option<RawRow> {
    let bytes = hex::decode(alloc, text).ok()?;
    RawRow::decode(alloc, &bytes).ok()
}

/// Whether the row has the bytes, and its entry so many of them.
pub(crate) fn has_bytes<R: Row>(alloc: Global, row: &R, text: &str, entry_len: usize) -> bool {
    match hex::decode(alloc, text) {
        Ok(bytes) => {
            bytes.get(..entry_len) == Some(row.entry_bytes())
                && bytes.get(entry_len..) == Some(row.token_bytes())
        }
        Err(_) => false,
    }
}

// So many rows, which stand in the table by turns.
fn rows_of(alloc: Global, table: &[(&str, Due)], count: usize) -> Option<Vec<RawRow>> {
    let mut rows = Vec::new(alloc);
    for at in 0..count {
        let (text, _) = table.get(at % table.len().max(1))?;
        rows.push(row(alloc, text)?).ok()?;
    }
    Some(rows)
}

// Whether the verdict is as it is due.
fn is_due<S: Verify>(
    alloc: Global,
    verdict: &Result<AuthorisedEntry<S>, RowRefusal>,
    text: &str,
    due: Due,
) -> bool {
    match (verdict, due) {
        (Err(refusal), Err(wanted)) => *refusal == wanted,
        (Ok(entry), Ok(entry_len)) => has_bytes(alloc, entry, text, entry_len),
        _ => false,
    }
}

// Whether the verdicts on so many rows, which stand in the table by turns, are as they are due.
fn are_due<S: Verify>(
    alloc: Global,
    verdicts: &[Result<AuthorisedEntry<S>, RowRefusal>],
    table: &[(&str, Due)],
    count: usize,
) -> Option<bool> {
    let mut same = verdicts.len() == count;
    for (at, verdict) in verdicts.iter().enumerate() {
        let (text, due) = table.get(at % table.len().max(1))?;
        same &= is_due(alloc, verdict, *text, *due);
    }
    Some(same)
}

/// Whether the checker answers what is due of so many rows, which stand in the table by turns.
pub(crate) fn judges<S: Scheme, C: Checker<S>>(
    rt: &(impl Threads + Sync),
    alloc: Global,
    checker: &mut C,
    table: &[(&str, Due)],
    count: usize,
) -> Option<bool> {
    let rows = rows_of(alloc, table, count)?;
    let verdicts = checker.check_all(rt, alloc, rows).ok()?;
    are_due(alloc, &verdicts, table, count)
}
