//! Rows that are so heavy that threads take turns at them.

use crate::rows::{namespace, row};
use crate::schemes::{OPEN_LENGTH, Padded};
use crate::texts;
use auth_batch::CachedChecker;
use auth_entry::{AuthorisedEntry, Checker, PlainChecker, RowRefusal};
use cap_codec::{RawRow, WriteToken};
use mc_cap::Signature;
use scheme_core::MAX_SIGNATURE;
use std::alloc::Global;
use std::thread::Threads;
use willow_entry::Row;

// More rows than there are threads.
const ROWS: usize = 38;

// A signature with bytes behind it: as many as there may be. In a wrong one its last byte differs.
fn padded(signature: &Signature, wrong: bool) -> Option<Signature> {
    let mut bytes = signature.copy().ok()?.into_vec();
    let last = bytes.get_mut(OPEN_LENGTH - 1)?;
    if wrong {
        *last ^= 1;
    }
    bytes.resize(MAX_SIGNATURE, 0).ok()?;
    Signature::new(bytes)
}

// The token of a row, with such a signature.
fn heavy_token(bare: &RawRow, wrong: bool) -> Option<WriteToken> {
    let signature = padded(&bare.token().signature, wrong)?;
    Some(WriteToken {
        capability: bare.token().capability.copy().ok()?,
        signature,
    })
}

// The row with that token.
fn heavy(alloc: Global, bare: &RawRow, wrong: bool) -> Option<RawRow> {
    let token = heavy_token(bare, wrong)?;
    RawRow::new(alloc, bare.entry().copy().ok()?, token).ok()
}

// Two capabilities and three entries stand by turns.
static TURNS: [&str; 3] = [texts::PLAIN, texts::DELEGATED, texts::DEEPER];

// The row that stands at this place.
fn row_at(alloc: Global, at: usize) -> Option<RawRow> {
    row(alloc, TURNS[at % 3])
}

// The rows, of which that at a place is wrong.
fn rows(alloc: Global, wrong: usize) -> Option<Vec<RawRow>> {
    let mut rows = Vec::new(alloc);
    for at in 0..ROWS {
        rows.push(heavy(alloc, &row_at(alloc, at)?, at == wrong)?)
            .ok()?;
    }
    Some(rows)
}

// Whether a row has the entry of the one that stands at this place.
fn is_entry_at(alloc: Global, entry: &AuthorisedEntry<Padded>, at: usize) -> Option<bool> {
    Some(entry.entry_bytes() == row_at(alloc, at)?.entry_bytes())
}

// Whether the verdict on the row at a place is a refusal where it is wrong, and else the row.
fn is_due(
    alloc: Global,
    verdict: &Result<AuthorisedEntry<Padded>, RowRefusal>,
    at: usize,
    wrong: usize,
) -> bool {
    match verdict {
        Err(refusal) => at == wrong && *refusal == RowRefusal::BadEntrySignature,
        Ok(entry) => at != wrong && is_entry_at(alloc, entry, at) == Some(true),
    }
}

// Whether all verdicts are so.
fn are_due(
    alloc: Global,
    verdicts: &[Result<AuthorisedEntry<Padded>, RowRefusal>],
    wrong: usize,
) -> bool {
    let mut due = verdicts.len() == ROWS;
    for (at, verdict) in verdicts.iter().enumerate() {
        due &= is_due(alloc, verdict, at, wrong);
    }
    due
}

// Whether the checker refuses the row at this place, and no other.
fn refuses_at<C: Checker<Padded>>(
    rt: &(impl Threads + Sync),
    alloc: Global,
    checker: &mut C,
    wrong: usize,
) -> Option<bool> {
    let verdicts = checker.check_all(rt, alloc, rows(alloc, wrong)?).ok()?;
    Some(are_due(alloc, &verdicts, wrong))
}

// Whether it does so with the wrong row at each place and at none.
fn refuses_each<C: Checker<Padded>>(
    rt: &(impl Threads + Sync),
    alloc: Global,
    checker: &mut C,
) -> Option<bool> {
    let mut due = true;
    for wrong in 0..=ROWS {
        due &= refuses_at(rt, alloc, checker, wrong)?;
    }
    Some(due)
}

// Whether a checker that remembers capabilities does.
fn cached_refuses(rt: &(impl Threads + Sync), alloc: Global) -> Option<bool> {
    let mut checker = CachedChecker::new(alloc, Padded, namespace(b'N')?, 8).ok()?;
    refuses_each(rt, alloc, &mut checker)
}

// Whether a plain one does.
fn plain_refuses(rt: &(impl Threads + Sync), alloc: Global) -> Option<bool> {
    let mut checker = PlainChecker::new(Padded, namespace(b'N')?);
    refuses_each(rt, alloc, &mut checker)
}

#[test]
fn one_wrong_signature_at_each_place(rt: HostRuntime) {
    let alloc = rt.alloc();
    let found = (cached_refuses(&rt, alloc), plain_refuses(&rt, alloc));
    assert!(rt; found == (Some(true), Some(true)));
}
