//! What becomes of rows that are offered, as a table, and a log that is full.

use crate::keys::{entry_at, namespace, number_path, path_of, place};
use ns_state::{LiveLog, LogFull, NsState, Told};
use std::alloc::Global;
use std::sync::Arc;
use std::test::*;
use willow_entry::{BareRow, LogRow, Row, SharedRow, same};
use willow_path::{End, Path};

// Rows offered one after the other: the pass, the one-byte components of the path, the timestamp, and what becomes of it.
static OFFERS: [(u32, &[u8], u64, Told); 6] = [
    (0, b"ab", 5, Told::Stored { at: 0 }),
    // at a prefix, but older: both stay
    (1, b"a", 4, Told::Stored { at: 1 }),
    // the same row again
    (2, b"ab", 5, Told::Kept { at: 0 }),
    // at an extension of a newer row
    (0, b"ac", 3, Told::Kept { at: 1 }),
    // at a prefix, and newer: the others go from the store
    (3, b"a", 6, Told::Stored { at: 2 }),
    // a row that went from the store is still in the log
    (1, b"ab", 5, Told::Kept { at: 0 }),
];

// A row at this path.
fn row(alloc: Global, path: Path, time: u64) -> Option<BareRow> {
    let entry = entry_at(place(0x55)?, path, (time, 0x11, 1));
    BareRow::new(alloc, entry, Vec::from_slice(alloc, &[0]).ok()?).ok()
}

// A row at a path of one-byte components.
fn row_at(alloc: Global, parts: &[u8], time: u64) -> Option<BareRow> {
    row(alloc, path_of(alloc, parts)?, time)
}

// The row of this number, at the path that spells it, at that time.
fn numbered(alloc: Global, number: u16) -> Option<BareRow> {
    row(alloc, number_path(alloc, number)?, u64::from(number))
}

// A value that a thread may hand on to another.
fn handed_on<T: Send>(value: T) -> T {
    value
}

// The state of rows that threads share is such a value, whatever the rows are.
fn shared<R: SharedRow>(state: NsState<R>) -> NsState<R> {
    handed_on(state)
}

// The state of the rows' namespace.
fn state(alloc: Global) -> Option<NsState<BareRow>> {
    Some(shared(NsState::new(alloc, namespace()?)))
}

// Offers a row; one of another namespace counts as want of memory.
fn offer(state: &mut NsState<BareRow>, pass: u32, row: BareRow) -> Result<Told, End<LogFull>> {
    if row.entry().namespace != state.namespace() {
        return Err(End::NoMemory);
    }
    state.ingest(pass, row)
}

// Whether the rows of the table are offered, and what the table says becomes of each.
fn are_told(alloc: Global, state: &mut NsState<BareRow>) -> Option<bool> {
    for (pass, parts, time, wanted) in &OFFERS {
        if offer(state, *pass, row_at(alloc, parts, *time)?) != Ok(*wanted) {
            return Some(false);
        }
    }
    Some(true)
}

// The pass and the timestamp of a row of the log.
fn log_row(state: &NsState<BareRow>, at: u32) -> Option<(u32, u64)> {
    let held = state.log_row(at)?;
    Some((held.pass, held.row.entry().timestamp))
}

// How many rows of the log are read.
fn read(state: &NsState<BareRow>, from: u32, most: u32) -> Option<usize> {
    Some(state.read_log(from, most).ok()?.len())
}

// The timestamps of the two most recent live rows.
fn newest(state: &NsState<BareRow>) -> (Option<u64>, Option<u64>) {
    let time = |n| Some(state.nth_newest(n)?.timestamp);
    (time(0), time(1))
}

// How many rows are live.
fn live(state: &NsState<BareRow>) -> Option<u32> {
    Some(state.snapshot().ok()?.len())
}

// Whether a state is one without rows.
fn is_empty(state: &NsState<BareRow>) -> bool {
    (state.front(), newest(state)) == (0, (None, None))
}

// Whether the log of a state is that of the offers, by its front, its rows, and how many rows are read.
fn is_log(state: &NsState<BareRow>) -> bool {
    let rows = [log_row(state, 1), log_row(state, 2), log_row(state, 3)];
    let counts = [read(state, 1, 1), read(state, 1, 5), read(state, 4, 1)];
    let due = (3, [Some((1, 4)), Some((3, 6)), None]);
    (state.front(), rows) == due && counts == [Some(1), Some(2), Some(0)]
}

// Whether what is live of a state is what is live after the offers.
fn is_live(state: &NsState<BareRow>) -> bool {
    (newest(state), live(state)) == ((Some(6), None), Some(1))
}

// Whether a state is empty, and the offers lead from it to what they should.
fn comes_out(alloc: Global, state: &mut NsState<BareRow>) -> bool {
    is_empty(state) && are_told(alloc, state) == Some(true) && is_log(state) && is_live(state)
}

// The same of a new state.
fn offers_come_out(alloc: Global) -> Option<bool> {
    Some(comes_out(alloc, &mut state(alloc)?))
}

#[test]
fn offers(rt: HostRuntime) {
    assert!(rt; offers_come_out(rt.alloc()) == Some(true));
}

// Rows by recency: the one-byte components of the path, and the timestamp. All have one digest and one length.
static NEWEST: [(&[u8], u64); 4] = [(b"d", 9), (b"a", 7), (b"b", 7), (b"c", 3)];

// The row of this number.
fn newest_row(alloc: Global, at: usize) -> Option<BareRow> {
    let (parts, time) = *NEWEST.get(at)?;
    row_at(alloc, parts, time)
}

// Offers a row to a log; one of another namespace counts as want of memory.
fn offer_to(log: &mut LiveLog<BareRow>, row: BareRow) -> Result<Option<u32>, End<LogFull>> {
    if row.entry().namespace != log.namespace() {
        return Err(End::NoMemory);
    }
    log.offer(0, row)
}

// Writes the rows into a log, the last one first, and one that the newest dominates.
fn write(alloc: Global, log: &mut LiveLog<BareRow>) -> Option<()> {
    offer_to(log, row_at(alloc, b"de", 8)?).ok()?;
    for at in [3, 1, 0, 2] {
        offer_to(log, newest_row(alloc, at)?).ok()?;
    }
    Some(())
}

// Whether a row is that of this number.
fn is_newest(alloc: Global, row: &BareRow, at: usize) -> Option<bool> {
    Some(same(row, &newest_row(alloc, at)?))
}

// Whether these are the newest rows, and so many.
fn are_rows(alloc: Global, rows: &[&BareRow], count: usize) -> bool {
    for at in 0..rows.len() {
        if is_newest(alloc, rows[at], at) != Some(true) {
            return false;
        }
    }
    rows.len() == count
}

// Whether so many are the newest rows where `most` are asked for.
fn are_newest(alloc: Global, log: &LiveLog<BareRow>, most: u32, count: usize) -> bool {
    match log.newest(most) {
        Ok(rows) => are_rows(alloc, &rows, count),
        Err(_) => false,
    }
}

static MOST: [(u32, usize); 4] = [(0, 0), (3, 3), (4, 4), (9, 4)];

// Whether a log into which the rows are written tells the newest of them.
fn tells_newest(alloc: Global, log: &mut LiveLog<BareRow>) -> Option<bool> {
    write(alloc, log)?;
    for (most, count) in &MOST {
        if !are_newest(alloc, log, *most, *count) {
            return Some(false);
        }
    }
    Some(true)
}

// The same of a new log.
fn new_log_tells_newest(alloc: Global) -> Option<bool> {
    tells_newest(alloc, &mut LiveLog::new(alloc, namespace()?))
}

// The rows of a log from a position on: how many, and the times of the first and the last of them.
fn rest(log: &LiveLog<BareRow>, at: u32) -> (usize, Option<u64>, Option<u64>) {
    let rows = log.rows_from(at);
    let time = |held: &LogRow<Arc<BareRow>>| held.row.entry().timestamp;
    (rows.len(), rows.first().map(time), rows.last().map(time))
}

// What is left from the beginning, from the last row, from the end and behind it, once the rows are written.
type Rest = [(usize, Option<u64>, Option<u64>); 4];

fn rests(alloc: Global, log: &mut LiveLog<BareRow>) -> Option<Rest> {
    write(alloc, log)?;
    Some([rest(log, 0), rest(log, 4), rest(log, 5), rest(log, 9)])
}

// The same of a new log.
fn new_log_rests(alloc: Global) -> Option<Rest> {
    rests(alloc, &mut LiveLog::new(alloc, namespace()?))
}

#[test]
fn the_rest_of_a_log(rt: HostRuntime) {
    let none = (0, None, None);
    let wanted = [(5, Some(8), Some(7)), (1, Some(7), Some(7)), none, none];
    assert!(rt; new_log_rests(rt.alloc()) == Some(wanted));
}

#[test]
fn newest_rows(rt: HostRuntime) {
    assert!(rt; new_log_tells_newest(rt.alloc()) == Some(true));
}

// Whether as many rows as the log has room for are stored, one after the other.
fn fills(alloc: Global, state: &mut NsState<BareRow>) -> Option<bool> {
    for number in 0..=u16::MAX {
        let at = u32::from(number);
        if offer(state, 0, numbered(alloc, number)?) != Ok(Told::Stored { at }) {
            return Some(false);
        }
    }
    Some(true)
}

// What becomes of a row.
type Outcome = Result<Told, End<LogFull>>;

// What a full log answers to a new row and to its first one, and its front then.
fn full_answers(alloc: Global, state: &mut NsState<BareRow>) -> Option<(Outcome, Outcome, u32)> {
    let new = offer(state, 0, row_at(alloc, b"a", 5)?);
    let first = offer(state, 0, numbered(alloc, 0)?);
    Some((new, first, state.front()))
}

// The same of a new log that is filled, and whether it is.
fn filled_answers(alloc: Global) -> Option<(Option<bool>, Option<(Outcome, Outcome, u32)>)> {
    let mut state = state(alloc)?;
    Some((fills(alloc, &mut state), full_answers(alloc, &mut state)))
}

#[test]
fn a_full_log(rt: HostRuntime) {
    let refused = Err(End::Refused(LogFull { front: 65_536 }));
    let due = (refused, Ok(Told::Kept { at: 0 }), 65_536);
    assert!(rt; filled_answers(rt.alloc()) == Some((Some(true), Some(due))));
}
