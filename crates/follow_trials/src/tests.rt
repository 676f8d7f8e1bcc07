//! Feeds and follows over links in memory, among them ones whose other side or link fails.

use crate::runs::{Feed, Wrote, bytes_of, fed, followed};
use mc_cap::RowRefusal;
use session_end::SessionEnd;
use std::alloc::Global;
use std::sync::Wait;
use std::test::*;
use std::thread::Threads;
use sync_follow::FollowReport;
use sync_msg::CoreRefusal;

#[test]
fn the_laws_can_be_called() {
    sync_follow::laws::small_feeds();
    sync_follow::laws::reads_feeds();
    sync_follow::laws::following_covers::<u8, u8, u8, u8, u8, u8, u8, u8, u8>();
    sync_follow::laws::one_is_followed();
}

// The numbers of a feed that was read whole, of which no row was refused.
fn report(read: u32, stored: u32, kept: u32) -> FollowReport {
    FollowReport {
        read,
        stored,
        kept,
        refused: 0,
        first: None,
    }
}

// How many rows were read, stored, kept and refused, and the first that was refused.
type Numbers = (u32, u32, u32, u32, Option<(u32, RowRefusal)>);

// What is read, in the subspace of the user of this letter, and what is answered.
type Case = (Feed, u8, Result<Numbers, SessionEnd>);

// A row has 224 bytes. One is authorised where the user U signed it.
static CASES: [Case; 13] = [
    ((&[], b"\x0b\x00\x00\x00\x00"), b'U', Ok((0, 0, 0, 0, None))),
    (
        (&[], b"\x0b\x00\x00\x00\x01"),
        b'U',
        Err(SessionEnd::BadMessage { at: 0 }),
    ),
    ((&[], b"\x0a"), b'U', Err(SessionEnd::ClosedEarly { at: 1 })),
    ((&[], b""), b'U', Err(SessionEnd::ClosedEarly { at: 0 })),
    ((&[], b"\x0c"), b'U', Err(SessionEnd::BadMessage { at: 0 })),
    (
        (&[], b"\x0a\x00\x02\x00\x01"),
        b'U',
        Err(SessionEnd::BadMessage { at: 0 }),
    ),
    (
        (&[(b'a', b'U')], b"\x0b\x00\x00\x00\x01"),
        b'U',
        Ok((1, 1, 0, 0, None)),
    ),
    (
        (&[(b'a', b'U'), (b'a', b'U')], b"\x0b\x00\x00\x00\x02"),
        b'U',
        Ok((2, 1, 1, 0, None)),
    ),
    (
        (&[(b'a', b'U'), (b'b', b'V')], b"\x0b\x00\x00\x00\x02"),
        b'U',
        Ok((2, 1, 0, 1, Some((2, RowRefusal::BadEntrySignature)))),
    ),
    (
        (&[(b'a', b'U')], b"\x0b\x00\x00\x00\x02"),
        b'U',
        Err(SessionEnd::BadMessage { at: 224 }),
    ),
    (
        (&[(b'a', b'U')], b"\x0b\x00\x00"),
        b'U',
        Err(SessionEnd::ClosedEarly { at: 227 }),
    ),
    (
        (&[(b'a', b'U')], b"\x0b\x00\x00\x00\x01"),
        b'V',
        Err(SessionEnd::Core(CoreRefusal::EntryOutside)),
    ),
    (
        (&[(b'a', b'U')], b"\x0b\x00\x00\x00\x01\x0c"),
        b'U',
        Ok((1, 1, 0, 0, None)),
    ),
];

// Whether this is answered.
fn is_told(answer: &Result<FollowReport, SessionEnd>, due: &Result<Numbers, SessionEnd>) -> bool {
    match (answer, due) {
        (Ok(report), Ok(due)) => {
            report.read == due.0
                && report.stored == due.1
                && report.kept == due.2
                && report.refused == due.3
                && report.first == due.4
        }
        (Err(end), Err(due)) => end == due,
        _ => false,
    }
}

// Whether a case comes out over a link that gives at most so many bytes at once.
fn comes_out<R: Wait + Threads + Sync>(
    rt: &R,
    alloc: Global,
    case: &Case,
    most: usize,
) -> Option<bool> {
    let bytes = bytes_of(alloc, &case.0)?;
    let answer = followed(rt, alloc, bytes, Vec::new(alloc), most, case.1)?;
    Some(is_told(&answer, &case.2))
}

#[test]
fn feeds_that_are_read(rt: HostRuntime) {
    let alloc = rt.alloc();
    for case in &CASES {
        for most in [1, 7, 1_000_000] {
            assert!(rt; comes_out(&rt, alloc, case, most) == Some(true));
        }
    }
}

// What is answered where this call of the link fails, which gives at most a hundred bytes at once.
fn failing<R: Wait + Threads + Sync>(
    rt: &R,
    alloc: Global,
    call: u64,
) -> Option<Result<FollowReport, SessionEnd>> {
    let bytes = bytes_of(alloc, &(&[(b'a', b'U')], b"\x0b\x00\x00\x00\x01"))?;
    let fails = Vec::from_slice(alloc, &[call]).ok()?;
    followed(rt, alloc, bytes, fails, 100, b'U')
}

#[test]
fn reads_that_fail(rt: HostRuntime) {
    let alloc = rt.alloc();
    for call in [1, 2, 3] {
        assert!(rt; failing(&rt, alloc, call) == Some(Err(SessionEnd::LinkRead)));
    }
    assert!(rt; failing(&rt, alloc, 4) == Some(Ok(report(1, 1, 0))));
}

// The number of the own pass, the first position, the letter of the user whose subspace is fed, and the rows that are.
type FedCase = (u32, u32, u8, Feed);

static FEEDS: [FedCase; 6] = [
    (
        2,
        0,
        b'U',
        (
            &[(b'a', b'U'), (b'b', b'U'), (b'c', b'U')],
            b"\x0b\x00\x00\x00\x03",
        ),
    ),
    (
        2,
        1,
        b'U',
        (&[(b'b', b'U'), (b'c', b'U')], b"\x0b\x00\x00\x00\x02"),
    ),
    (1, 0, b'U', (&[(b'b', b'U')], b"\x0b\x00\x00\x00\x01")),
    (
        0,
        0,
        b'U',
        (&[(b'a', b'U'), (b'c', b'U')], b"\x0b\x00\x00\x00\x02"),
    ),
    (2, 3, b'U', (&[], b"\x0b\x00\x00\x00\x00")),
    (2, 0, b'V', (&[], b"\x0b\x00\x00\x00\x00")),
];

// Whether a feed is told so and written so.
fn is_fed(wrote: &Wrote, told: &Feed, bytes: &[u8]) -> bool {
    match &wrote.0 {
        Ok(fed) => {
            fed.count as usize == told.0.len() && fed.to == 3 && wrote.1.as_slice() == bytes
        }
        Err(_) => false,
    }
}

// Whether a feed comes out.
fn feeds<W: Wait>(rt: &W, alloc: Global, case: &FedCase) -> Option<bool> {
    let bytes = bytes_of(alloc, &case.3)?;
    let wrote = fed(rt, alloc, case.0, case.1, case.2, Vec::new(alloc))?;
    Some(is_fed(&wrote, &case.3, &bytes))
}

#[test]
fn feeds_that_are_written(rt: HostRuntime) {
    let alloc = rt.alloc();
    for case in &FEEDS {
        assert!(rt; feeds(&rt, alloc, case) == Some(true));
    }
}

// Whether a feed over a link whose first call fails is told so, and nothing written.
fn unwritten<W: Wait>(rt: &W, alloc: Global) -> Option<bool> {
    let fails = Vec::from_slice(alloc, &[1]).ok()?;
    let wrote = fed(rt, alloc, 2, 0, b'U', fails)?;
    Some(wrote.0 == Err(SessionEnd::LinkWrite) && wrote.1.is_empty())
}

#[test]
fn writes_that_fail(rt: HostRuntime) {
    let alloc = rt.alloc();
    assert!(rt; unwritten(&rt, alloc) == Some(true));
}
