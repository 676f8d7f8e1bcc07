//! Which of two entries is newer, which rows dominate others, and how entries and rows are spelled and read.

use crate::names::{Parts, is_spelled, key_of, path_of};
use spelling::Input;
use std::alloc::Global;
use std::cmp::Ordering;
use std::sync::Arc;
use std::test::*;
use willow_entry::{
    BareRow, BareRows, Entry, LogRow, Placed, Rank, Row, RowForm, SharedRow, by_inner_place,
    by_place, by_rank, by_subspace_path, cover, covers, dominates, encode_row_frame, entry_message,
    newer, put_row_message, read_entry, row_message, same,
};
use willow_path::{Digest, NamespaceKey, NoMemory, Path, UserKey};

// A timestamp, the bytes of a digest, and a length.
type Numbers = (u64, u8, u64);

// An entry by path and numbers.
fn entry(alloc: Global, parts: &[&[u8]], (time, digest, length): Numbers) -> Option<Entry> {
    Some(Entry {
        namespace: NamespaceKey::from_bytes(key_of(0, 0x4e)?.to_bytes())?,
        subspace: key_of(0, 0x55)?,
        path: path_of(alloc, parts)?,
        timestamp: time,
        length,
        digest: Digest([digest; 32]),
    })
}

fn row(alloc: Global, parts: &[&[u8]], time: u64, token: u8) -> Option<BareRow> {
    let entry = entry(alloc, parts, (time, 0x11, 1))?;
    let token = Vec::from_slice(alloc, &[token]).ok()?;
    BareRow::new(alloc, entry, token).ok()
}

// Whether a rank of the first numbers is above one of the second.
fn is_above(e: Numbers, f: Numbers) -> bool {
    by_rank(
        &Rank::new(e.0, &Digest([e.1; 32]), e.2),
        &Rank::new(f.0, &Digest([f.1; 32]), f.2),
    )
    .is_gt()
}

// Whether the first entry is newer than the second.
fn comes_later(e: Option<&Entry>, f: Option<&Entry>) -> Option<bool> {
    Some(newer(e?, f?))
}

// Whether an entry of the first numbers is newer than one of the second.
fn is_newer(alloc: Global, e: Numbers, f: Numbers) -> Option<bool> {
    comes_later(
        entry(alloc, &[b"a"], e).as_ref(),
        entry(alloc, &[b"b"], f).as_ref(),
    )
}

const NEWER: &[(Numbers, Numbers, bool)] = &[
    ((6, 0x11, 1), (5, 0x12, 9), true),
    ((5, 0x12, 1), (5, 0x11, 900), true),
    ((5, 0x11, 2), (5, 0x11, 1), true),
    ((5, 0x11, 1), (5, 0x11, 1), false),
    ((5, 0x11, 900), (5, 0x12, 1), false),
];

#[test]
fn newer_by_timestamp_then_digest_then_length(rt: HostRuntime) {
    let alloc = rt.alloc();
    for (e, f, due) in NEWER {
        assert!(rt; (is_newer(alloc, *e, *f), is_above(*e, *f)) == (Some(*due), *due));
    }
}

// A row's path, timestamp and token.
type Place = (Parts, u64, u8);

// Whether the first row dominates the second.
fn is_over(r: Option<&BareRow>, s: Option<&BareRow>) -> Option<bool> {
    Some(dominates(r?, s?))
}

// Whether a row at the first path dominates one at the second.
fn prunes(alloc: Global, r: Place, s: Place) -> Option<bool> {
    is_over(
        row(alloc, r.0, r.1, r.2).as_ref(),
        row(alloc, s.0, s.1, s.2).as_ref(),
    )
}

const PRUNED: &[(Place, Place, bool)] = &[
    ((&[b"a"], 6, 0), (&[b"a", b"b"], 5, 0), true),
    ((&[b"a", b"b"], 6, 0), (&[b"a"], 5, 0), false),
    ((&[b"a"], 5, 0), (&[b"a", b"b"], 5, 0), false),
    ((&[b"a"], 5, 1), (&[b"a"], 5, 0), true),
    ((&[b"a"], 5, 0), (&[b"a"], 5, 0), false),
];

#[test]
fn domination(rt: HostRuntime) {
    let alloc = rt.alloc();
    for (r, s, due) in PRUNED {
        assert!(rt; prunes(alloc, *r, *s) == Some(*due));
    }
}

// Three rows, of which the second covers what stands at its extensions.
const THREE: &[(Parts, u64)] = &[(&[b"b"], 9), (&[b"a"], 6), (&[b"a", b"b"], 7)];

fn three_rows(alloc: Global) -> Option<Vec<BareRow>> {
    let mut rows = Vec::new(alloc);
    for (parts, time) in THREE {
        rows.push(row(alloc, parts, *time, 0)?).ok()?;
    }
    Some(rows)
}

// The place of the first of some rows that covers this one.
fn cover_in(rows: Option<&Vec<BareRow>>, row: Option<&BareRow>) -> Option<Option<usize>> {
    Some(cover(rows?, row?))
}

// The place of the first of the three rows that covers one at this path.
fn cover_of(alloc: Global, parts: &[&[u8]]) -> Option<Option<usize>> {
    cover_in(three_rows(alloc).as_ref(), row(alloc, parts, 5, 0).as_ref())
}

#[test]
fn covering_rows(rt: HostRuntime) {
    let below = cover_of(rt.alloc(), &[b"a", b"b", b"c"]);
    let other = cover_of(rt.alloc(), &[b"c"]);
    assert!(rt; (below, other) == (Some(Some(1)), Some(None)));
}

// A row that is kept once for all its copies.
#[derive(Drop)]
struct OnceKept {
    row: Arc<BareRow>,
}

impl Row for OnceKept {
    ghost value = { λ r. r.row.value };

    fn entry(&self) -> &Entry {
        self.row.entry()
    }

    fn entry_bytes(&self) -> &[u8] {
        self.row.entry_bytes()
    }

    fn token_bytes(&self) -> &[u8] {
        self.row.token_bytes()
    }

    fn copy(&self) -> Result<OnceKept, NoMemory> {
        Ok(OnceKept {
            row: Arc::try_clone(&self.row)?,
        })
    }
}

impl SharedRow for OnceKept {}

// The timestamp of a row that threads may share.
fn shared_timestamp<R: SharedRow>(row: &R) -> u64 {
    row.entry().timestamp
}

// Whether a row and its copy are the same and cover each other, how their places are ordered, and the copy's timestamp.
type Copied = (bool, bool, Ordering, u64);

fn beside(made: &BareRow, copy: &BareRow) -> Copied {
    (
        same(made, copy),
        covers(made, copy),
        by_place(made, copy),
        shared_timestamp(copy),
    )
}

// What is told of a row and its copy.
fn copied(made: &BareRow) -> Option<Copied> {
    Some(beside(made, &made.copy().ok()?))
}

// The pass and the timestamp of a copy of a logged row.
fn copied_log(held: &LogRow<BareRow>) -> Option<(u32, u64)> {
    let again = held.copy().ok()?;
    Some((again.pass, again.row.entry().timestamp))
}

// What is told of the copies of a row, alone and in a log.
fn row_copied(alloc: Global) -> Option<(Option<Copied>, Option<(u32, u64)>)> {
    let row = row(alloc, &[b"a"], 6, 0)?;
    let held = LogRow { pass: 3, row };
    Some((copied(&held.row), copied_log(&held)))
}

#[test]
fn copies(rt: HostRuntime) {
    let due = (Some((true, true, Ordering::Equal, 6)), Some((3, 6)));
    assert!(rt; row_copied(rt.alloc()) == Some(due));
}

// A copy of a row that is kept once.
fn kept_copy(alloc: Global, row: &BareRow) -> Option<OnceKept> {
    let row = Arc::new(alloc, row.copy().ok()?).ok()?;
    OnceKept { row }.copy().ok()
}

// Whether a row is the same as one of another type, how their places are ordered, and the other's timestamp.
fn across(made: &BareRow, kept: &OnceKept) -> (bool, Ordering, u64) {
    (
        same(made, kept),
        by_inner_place(kept, made),
        shared_timestamp(kept),
    )
}

// What is told of a row and its copy that is kept once.
fn in_two_types(alloc: Global, made: &BareRow) -> Option<(bool, Ordering, u64)> {
    Some(across(made, &kept_copy(alloc, made)?))
}

// The same of a row that is made.
fn row_in_two_types(alloc: Global) -> Option<(bool, Ordering, u64)> {
    in_two_types(alloc, &row(alloc, &[b"a"], 6, 0)?)
}

#[test]
fn rows_of_two_types(rt: HostRuntime) {
    let found = row_in_two_types(rt.alloc());
    let differ = Placed::Kept { by: 1 } != Placed::Stored { pruned: 1 };
    assert!(rt; (found, differ) == (Some((true, Ordering::Equal, 6)), true));
}

// The byte of a key, and the component of a path.
type Inner = (u8, &'static [u8]);

// How a place of the first key and path is ordered against one of the second.
fn ordered(keys: (UserKey, UserKey), p: Option<&Path>, q: Option<&Path>) -> Option<Ordering> {
    Some(by_subspace_path((&keys.0, p?), (&keys.1, q?)))
}

// How two places of keys and paths are ordered.
fn places_compared(alloc: Global, p: Inner, q: Inner) -> Option<Ordering> {
    ordered(
        (key_of(0, p.0)?, key_of(0, q.0)?),
        path_of(alloc, &[p.1]).as_ref(),
        path_of(alloc, &[q.1]).as_ref(),
    )
}

const PLACES: &[(Inner, Inner, Ordering)] = &[
    ((1, b"b"), (2, b"a"), Ordering::Less),
    ((1, b"a"), (1, b"b"), Ordering::Less),
    ((2, b"a"), (2, b"a"), Ordering::Equal),
];

#[test]
fn places_within_a_namespace(rt: HostRuntime) {
    let alloc = rt.alloc();
    for (p, q, due) in PLACES {
        assert!(rt; places_compared(alloc, *p, *q) == Some(*due));
    }
}

// An entry's spelling, with a byte behind it.
fn text_of(alloc: Global, entry: &Entry) -> Option<Vec<u8>> {
    let mut text = Vec::new(alloc);
    entry.encode(&mut text).ok()?;
    text.push(9).ok()?;
    Some(text)
}

// Two keys, a path, numbers and a digest, and the byte behind them.
const TEXT: Parts = &[
    b"\0NNNNNNNNNNNNNNNNNNNNNNNNNNNNNNNN",
    b"\0UUUUUUUUUUUUUUUUUUUUUUUUUUUUUUUU",
    &[1, 1, 0x61],
    &[0, 0, 0, 0, 0, 0, 1, 2, 0, 0, 0, 0, 0, 0, 3, 4],
    &[0x11; 32],
    &[9],
];

// Whether an entry is spelled so.
fn is_text(alloc: Global, entry: &Entry) -> Option<bool> {
    is_spelled(alloc, &text_of(alloc, entry)?, TEXT)
}

// Whether one of these numbers is.
fn spelled(alloc: Global) -> Option<bool> {
    is_text(alloc, &entry(alloc, &[b"a"], (0x0102, 0x11, 0x0304))?)
}

// The length of the text of an entry's copy.
fn copy_len(alloc: Global, entry: &Entry) -> Option<usize> {
    Some(text_of(alloc, &entry.copy().ok()?)?.len())
}

// That length of a longer entry.
fn longer_len(alloc: Global) -> Option<usize> {
    copy_len(alloc, &entry(alloc, &[b"a", b"b"], (5, 0x11, 1))?)
}

#[test]
fn spellings(rt: HostRuntime) {
    assert!(rt; (spelled(rt.alloc()), longer_len(rt.alloc())) == (Some(true), Some(120)));
}

// The frame of a short row.
#[tactic(auto, unfolding(willow_entry::specs::RowBody::row_body))]
fn frame_of(alloc: Global, row: &BareRow) -> Option<Vec<u8>> {
    let mut frame = Vec::new(alloc);
    if row.entry_bytes().len() < 1000 && row.token_bytes().len() < 1000 {
        encode_row_frame(row, &mut frame).ok()?;
    }
    Some(frame)
}

// The lengths of the message and of the spelling of a row's entry, and whether the one is `E` and the other.
fn message(alloc: Global, row: &BareRow) -> Option<(usize, usize, bool)> {
    let message = entry_message(alloc, row.entry()).ok()?;
    let is_due = is_spelled(alloc, &message, &[b"E", row.entry_bytes()])?;
    Some((message.len(), row.entry().spelled_len(), is_due))
}

// A row's message, twice.
fn twice(alloc: Global, row: &BareRow) -> Option<Vec<u8>> {
    let mut text = row_message(alloc, row).ok()?;
    put_row_message(row, &mut text).ok()?;
    Some(text)
}

// Whether it is its entry's, twice.
fn is_twice(alloc: Global, row: &BareRow) -> Option<bool> {
    let message = entry_message(alloc, row.entry()).ok()?;
    is_spelled(alloc, &twice(alloc, row)?, &[&message, &message])
}

// The length of a row's frame, and whether it begins and ends so.
fn framed(alloc: Global, row: &BareRow) -> Option<(usize, bool, bool)> {
    let frame = frame_of(alloc, row)?;
    Some((
        frame.len(),
        frame.starts_with(&[0, 0, 0, 118]),
        frame.ends_with(&[9]),
    ))
}

// What is told of a row's messages and of its frame.
type Written = (
    Option<(usize, usize, bool)>,
    Option<bool>,
    Option<(usize, bool, bool)>,
);

fn written(alloc: Global) -> Option<Written> {
    let row = row(alloc, &[b"a"], 5, 9)?;
    Some((
        message(alloc, &row),
        is_twice(alloc, &row),
        framed(alloc, &row),
    ))
}

#[test]
fn messages_and_frames(rt: HostRuntime) {
    let due = (Some((118, 117, true)), Some(true), Some((122, true, true)));
    assert!(rt; written(rt.alloc()) == Some(due));
}

// How many bytes of an entry's text are taken, and whether what is read has its path.
fn decoded(alloc: Global, made: &Entry, text: &[u8]) -> Option<(usize, bool)> {
    let (back, taken) = Entry::decode(alloc, text).ok()?;
    Some((taken, back.path == made.path))
}

// Whether the entry that is read is newer than what was spelled, or the other way round.
fn read_again(alloc: Global, made: &Entry, text: &[u8]) -> Option<(bool, bool)> {
    let again = read_entry(alloc, &mut Input::new(text)).ok()?;
    Some((newer(&again, made), newer(made, &again)))
}

// Whether a text that is cut is refused.
fn is_cut_refused(alloc: Global, text: &[u8]) -> Option<bool> {
    Some(Entry::decode(alloc, text.get(..116)?).is_err())
}

// What is told of an entry and its text.
type Told = (Option<(usize, bool)>, Option<(bool, bool)>, Option<bool>);

fn told(alloc: Global, made: &Entry, text: &[u8]) -> Told {
    (
        decoded(alloc, made, text),
        read_again(alloc, made, text),
        is_cut_refused(alloc, text),
    )
}

// The same of an entry that is made.
fn entry_told(alloc: Global) -> Option<Told> {
    let made = entry(alloc, &[b"a"], (5, 0x11, 1))?;
    Some(told(alloc, &made, &text_of(alloc, &made)?))
}

#[test]
fn reading(rt: HostRuntime) {
    let found = entry_told(rt.alloc());
    let is_wrong_refused = Entry::decode(rt.alloc(), &[2; 117]).is_err();
    let due = (Some((117, true)), Some((false, false)), Some(true));
    assert!(rt; (found, is_wrong_refused) == (Some(due), true));
}

// Whether a row that is read from these bytes is this one.
fn is_body_of(alloc: Global, bytes: &[u8], made: &BareRow) -> bool {
    match BareRows::read(alloc, bytes) {
        Ok(Some(read)) => same(&read, made),
        _ => false,
    }
}

// Whether no row is read from these bytes.
fn is_no_body(alloc: Global, bytes: &[u8]) -> bool {
    matches!(BareRows::read(alloc, bytes), Ok(None))
}

// Whether a row is read from its body.
fn is_read(alloc: Global, made: &BareRow) -> Option<bool> {
    Some(is_body_of(alloc, &text_of(alloc, made.entry())?, made))
}

// The same of a row that is made.
fn row_is_read(alloc: Global) -> Option<bool> {
    is_read(alloc, &row(alloc, &[b"a"], 5, 9)?)
}

#[test]
fn bodies(rt: HostRuntime) {
    let found = (row_is_read(rt.alloc()), is_no_body(rt.alloc(), &[2; 117]));
    assert!(rt; found == (Some(true), true));
}

#[test]
fn the_laws_can_be_called() {
    willow_entry::laws::newer();
    willow_entry::laws::domination();
    willow_entry::laws::covering();
    willow_entry::laws::ranks();
    willow_entry::laws::places();
    willow_entry::laws::inner_places();
    willow_entry::laws::limits();
    willow_entry::laws::liveness();
    willow_entry::laws::order_is_free();
    willow_entry::laws::pruning_early();
    willow_entry::laws::joins();
    willow_entry::laws::one_spelling();
}
