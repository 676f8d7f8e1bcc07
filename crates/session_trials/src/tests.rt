//! Sessions over links in memory: two that meet, and ones whose other side, link or signer fails.

use crate::fakes::FailingSigner;
use crate::plans::Side;
use crate::rounds::{Met, have_lengths, meeting};
use crate::rows::{Rows, ask, signature_at, signer};
use crate::runs::{Ran, run_with};
use mc_cap::RowRefusal;
use session_end::HelloRefusal;
use std::alloc::Global;
use std::sync::Wait;
use std::test::*;
use std::thread::Threads;
use sync_core::CoreRefusal;
use sync_link::{RefusedRow, SessionEnd, SessionReport};
use sync_msg::Role;
use willow_outside::MemLink;

#[test]
fn the_laws_can_be_called() {
    sync_link::laws::pieces();
    sync_link::laws::grows();
    sync_link::laws::granted();
    sync_link::laws::worlds();
    sync_link::laws::offers();
    sync_link::laws::speaks_to_the_end();
    sync_link::laws::settles();
    sync_link::run_laws::runs_alike();
    sync_link::run_laws::runs_granted();
    sync_link::run_laws::runs_meet();
    sync_link::run_laws::runs_cover();
    sync_link::run_laws::runs_join();
    sync_link::run_laws::runs_end();
}

// So many rows, of which one may be newer.
fn rows(count: u8, newer: Option<u8>) -> Rows {
    Rows { count, newer }
}

// What a side reports: how many rows it had, how many of those that came were stored and kept, and how many items it sent
// and read.
type Numbers = (u32, u32, u64, u32, u32);

// The versions that the caller and the answerer speak, how many rows each has, which one is newer at the answerer, the numbers
// of bytes of what both write in turn, and what the caller and the answerer report.
type Case = ((u8, u8), u8, Option<u8>, &'static [usize], Numbers, Numbers);

// A hello has 136 bytes and a proof 34; the caller's proof comes with its first turn. In a session of version 1 the answerer
// cuts the area in two, and the caller its upper half; in one of version 2 the answerer cuts it in four, and the caller tells
// its rows of the third part.
static CASES: [Case; 5] = [
    (
        (1, 1),
        40,
        Some(25),
        &[136, 136 + 34, 34 + 34, 70, 71, 2234, 229, 1],
        (40, 1, 9, 4, 3),
        (40, 0, 1, 3, 4),
    ),
    (
        (2, 1),
        40,
        Some(25),
        &[136, 136 + 34, 34 + 34, 70, 71, 2234, 229, 1],
        (40, 1, 9, 4, 3),
        (40, 0, 1, 3, 4),
    ),
    (
        (1, 2),
        40,
        Some(25),
        &[136, 136 + 34, 34 + 34, 70, 71, 2234, 229, 1],
        (40, 1, 9, 4, 3),
        (40, 0, 1, 3, 4),
    ),
    (
        (2, 2),
        40,
        Some(25),
        &[136, 136 + 34, 34 + 34, 141, 2236, 229, 1],
        (40, 1, 0, 5, 2),
        (40, 0, 10, 2, 5),
    ),
    (
        (2, 2),
        0,
        None,
        &[136, 136 + 34, 34 + 34, 2, 1],
        (0, 0, 0, 1, 1),
        (0, 0, 0, 1, 1),
    ),
];

// The report of these, where no row was refused. Both ask for the user's subspace.
fn reported(alloc: Global, numbers: Numbers) -> Option<SessionReport> {
    let (opened, stored, kept, sent, read) = numbers;
    Some(SessionReport {
        opened,
        closed: opened.saturating_add(stored),
        stored,
        kept,
        refused: 0,
        first: None,
        sent,
        read,
        area: Some(ask(alloc)?),
    })
}

// Whether two sides met as the case says.
fn is_as_told(alloc: Global, met: &Met, case: &Case) -> Option<bool> {
    let (_, _, _, turns, caller, answerer) = case;
    let told = met.caller.answer == Ok(reported(alloc, *caller)?)
        && met.answerer.answer == Ok(reported(alloc, *answerer)?);
    Some(told && have_lengths(&met.turns, turns))
}

// Whether the sides of a case meet so, which read at most so many bytes at a time.
fn meet_so<R: Wait + Threads + Sync>(
    rt: &R,
    alloc: Global,
    case: &Case,
    most: usize,
) -> Option<bool> {
    let (versions, count, newer, _, _, _) = case;
    let caller = Side {
        version: versions.0,
        rows: rows(*count, None),
    };
    let answerer = Side {
        version: versions.1,
        rows: rows(*count, *newer),
    };
    is_as_told(alloc, &meeting(rt, alloc, caller, answerer, most)?, case)
}

#[test]
fn meetings(rt: HostRuntime) {
    let alloc = rt.alloc();
    for case in &CASES {
        for most in [1, 7, 1_000_000] {
            assert!(rt; meet_so(&rt, alloc, case, most) == Some(true));
        }
    }
}

// The own side speaks both versions.
const OWN: Side = Side {
    version: 2,
    rows: Rows {
        count: 3,
        newer: None,
    },
};

// The other side has a newer row at the path of 1, and one more at the path of 3.
fn other(version: u8) -> Side {
    Side {
        version,
        rows: rows(4, Some(1)),
    }
}

// Where the bytes first have this part.
fn place_of(bytes: &[u8], part: &[u8]) -> Option<usize> {
    for at in 0..bytes.len() {
        if bytes[at..].starts_with(part) {
            return Some(at);
        }
    }
    None
}

// The bytes, with zeros in place of the signature of the row at the path of 3.
fn without_signature(alloc: Global, bytes: &[u8]) -> Option<Vec<u8>> {
    let at = place_of(bytes, &signature_at(alloc, 3)?)?;
    let mut spoiled = Vec::from_slice(alloc, bytes).ok()?;
    for byte in spoiled.iter_mut().skip(at).take(32) {
        *byte = 0;
    }
    Some(spoiled)
}

// The meeting of the own side in this role with the other, which speaks this version.
pub(crate) fn met<R: Wait + Threads + Sync>(
    rt: &R,
    alloc: Global,
    role: Role,
    version: u8,
) -> Option<Met> {
    match role {
        Role::Caller => meeting(rt, alloc, OWN, other(version), 1_000_000),
        Role::Answerer => meeting(rt, alloc, other(version), OWN, 1_000_000),
    }
}

// What both wrote, the own side and then the other.
pub(crate) fn written(met: &Met, role: Role) -> (&[u8], &[u8]) {
    match role {
        Role::Caller => (&met.caller.written, &met.answerer.written),
        Role::Answerer => (&met.answerer.written, &met.caller.written),
    }
}

// The own side in this role on these bytes, read at most so many at a time, over a link of which these calls fail.
fn run_own<R: Wait + Threads + Sync>(
    rt: &R,
    alloc: Global,
    role: Role,
    heard: Vec<u8>,
    fails: Vec<u64>,
    most: usize,
) -> Option<Ran> {
    let signer = signer()?;
    let link = MemLink::new(alloc, heard, fails, most.max(1));
    run_with(rt, alloc, role, OWN, signer, link)
}

// The same over a link without failing calls.
pub(crate) fn run_on<R: Wait + Threads + Sync>(
    rt: &R,
    alloc: Global,
    role: Role,
    heard: Vec<u8>,
    most: usize,
) -> Option<Ran> {
    run_own(rt, alloc, role, heard, Vec::new(alloc), most)
}

// The answerer tells its four rows, and the caller its row that was not among them; or it tells its three, and the caller
// the two that were not. What the answerer has at the path of 1 is stored, and its last row refused.
fn report(alloc: Global, role: Role) -> Option<SessionReport> {
    let (row, kept, sent, read) = match role {
        Role::Caller => (4, 2, 2, 1),
        Role::Answerer => (2, 0, 1, 2),
    };
    Some(SessionReport {
        opened: 3,
        closed: 4,
        stored: 1,
        kept,
        refused: 1,
        first: Some(RefusedRow {
            row,
            refusal: RowRefusal::BadEntrySignature,
        }),
        sent,
        read,
        area: Some(ask(alloc)?),
    })
}

// Whether the own side in this role reported so, wrote these bytes, has the rows that it should, and judged the other's in
// so many calls.
fn is_session(alloc: Global, ran: &Ran, role: Role, own: &[u8], calls: u64) -> Option<bool> {
    let told = ran.answer == Ok(report(alloc, role)?);
    Some(
        told && ran.written.as_slice() == own
            && ran.times.as_slice() == [100, 101, 102, 200].as_slice()
            && ran.calls == calls,
    )
}

// Whether it does on what the other wrote, without the signature of the row at the path of 3.
fn comes_out<R: Wait + Threads + Sync>(
    rt: &R,
    alloc: Global,
    role: Role,
    (own, other): (&[u8], &[u8]),
    most: usize,
    calls: u64,
) -> Option<bool> {
    let heard = without_signature(alloc, other)?;
    let ran = run_on(rt, alloc, role, heard, most)?;
    is_session(alloc, &ran, role, own, calls)
}

// The same in the meeting of that role.
fn session_comes_out<R: Wait + Threads + Sync>(
    rt: &R,
    alloc: Global,
    role: Role,
    most: usize,
    calls: u64,
) -> Option<bool> {
    let met = met(rt, alloc, role, 2)?;
    comes_out(rt, alloc, role, written(&met, role), most, calls)
}

// The role, how many bytes are read at a time at most, and in how many calls rows are judged.
static SESSIONS: [(Role, usize, u64); 4] = [
    (Role::Caller, 7, 4),
    (Role::Caller, 1_000_000, 1),
    (Role::Answerer, 7, 2),
    (Role::Answerer, 1_000_000, 1),
];

#[test]
fn sessions(rt: HostRuntime) {
    let alloc = rt.alloc();
    for (role, most, calls) in &SESSIONS {
        assert!(rt; session_comes_out(&rt, alloc, *role, *most, *calls) == Some(true));
    }
}

// What the other side says to the own caller, where it speaks this version; its row at the path of 3 is not signed.
fn said<R: Wait + Threads + Sync>(rt: &R, alloc: Global, version: u8) -> Option<Vec<u8>> {
    let met = met(rt, alloc, Role::Caller, version)?;
    without_signature(alloc, &met.answerer.written)
}

// A cut of the asked area in two that begins, and one at the empty path.
const TWO_BEGUN: &[u8] = b"\x03\x01";

const TWO_AT_NO_PATH: &[u8] =
    b"\x03\x01\x00................................................................";

// A cut of the asked area in parts that begins, one at two points of which the second is below the first, and what begins as
// one at four points.
const PARTS_BEGUN: &[u8] = b"\x08\x01\x02\x01";

const PARTS_FALLING: &[u8] =
    b"\x08\x01\x02\x01\x01\x14\x01\x01\x0a................................................................................................";

const FIVE_PARTS: &[u8] = b"\x08\x01\x04";

// The answerer's hello and proof, of which the hello may be of version 0, and these bytes behind them.
fn greeting(alloc: Global, said: &[u8], version: u8, behind: &[u8]) -> Option<Vec<u8>> {
    let mut bytes = Vec::from_slice(alloc, said.get(..136 + 34)?).ok()?;
    *bytes.get_mut(3)? = version;
    bytes.extend_from_slice(behind).ok()?;
    Some(bytes)
}

// The version of the answerer's hello, the bytes behind its greeting, how the session ends, and how many bytes are written.
type Ending = (u8, &'static [u8], SessionEnd, usize);

// A caller that says its hello, its proof and its first item reads that greeting and these bytes, and the link ends.
static ENDINGS: [Ending; 9] = [
    (1, b"", SessionEnd::ClosedEarly { at: 170 }, 204),
    (1, TWO_BEGUN, SessionEnd::ClosedEarly { at: 172 }, 204),
    (
        1,
        TWO_AT_NO_PATH,
        SessionEnd::Core(CoreRefusal::BadCut),
        204,
    ),
    (1, PARTS_BEGUN, SessionEnd::BadMessage { at: 170 }, 204),
    (2, PARTS_BEGUN, SessionEnd::ClosedEarly { at: 174 }, 204),
    (2, PARTS_FALLING, SessionEnd::Core(CoreRefusal::BadCut), 204),
    (2, FIVE_PARTS, SessionEnd::BadMessage { at: 170 }, 204),
    (2, TWO_BEGUN, SessionEnd::BadMessage { at: 170 }, 204),
    (0, b"", SessionEnd::Hello(HelloRefusal::VersionUnknown), 136),
];

// Whether the caller ends so. The answerer's proof is for the version that it speaks, which is 1 at least.
fn ends_so<R: Wait + Threads + Sync>(
    rt: &R,
    alloc: Global,
    ending: &Ending,
    most: usize,
) -> Option<bool> {
    let (version, behind, end, written) = ending;
    let said = said(rt, alloc, (*version).max(1))?;
    let heard = greeting(alloc, &said, *version, behind)?;
    let ran = run_on(rt, alloc, Role::Caller, heard, most)?;
    Some(ran.answer == Err(*end) && ran.written.len() == *written)
}

// However many bytes it reads at a time, the caller ends as the table says.
#[test]
fn endings(rt: HostRuntime) {
    let alloc = rt.alloc();
    for ending in &ENDINGS {
        for most in [1, 1_000_000] {
            assert!(rt; ends_so(&rt, alloc, ending, most) == Some(true));
        }
    }
}

// The call of the link that fails, how the session ends, how many bytes are written, and the times of the rows then.
type Failure = (u64, SessionEnd, usize, &'static [u64]);

// The first call of the link writes the hello, the second reads all that the answerer says, and the third writes all that
// is due to it. By then the rows are stored.
static FAILURES: [Failure; 3] = [
    (1, SessionEnd::LinkWrite, 0, &[100, 101, 102]),
    (2, SessionEnd::LinkRead, 136, &[100, 101, 102]),
    (3, SessionEnd::LinkWrite, 136, &[100, 101, 102, 200]),
];

// What comes of the caller where this call of the link fails.
fn run_failing<R: Wait + Threads + Sync>(
    rt: &R,
    alloc: Global,
    said: &[u8],
    call: u64,
) -> Option<Ran> {
    let fails = Vec::from_slice(alloc, &[call]).ok()?;
    let heard = Vec::from_slice(alloc, said).ok()?;
    run_own(rt, alloc, Role::Caller, heard, fails, 1_000_000)
}

// Whether that is what the table says.
fn fails_so<R: Wait + Threads + Sync>(
    rt: &R,
    alloc: Global,
    said: &[u8],
    failure: &Failure,
) -> Option<bool> {
    let (call, end, written, times) = failure;
    let ran = run_failing(rt, alloc, said, *call)?;
    let has_ended = ran.answer == Err(*end) && ran.written.len() == *written;
    Some(has_ended && ran.times.as_slice() == *times)
}

// Whether it is for each call.
fn all_fail_so<R: Wait + Threads + Sync>(rt: &R, alloc: Global, said: &[u8]) -> bool {
    for failure in &FAILURES {
        if fails_so(rt, alloc, said, failure) != Some(true) {
            return false;
        }
    }
    true
}

// The same on what the other side says.
fn failures_come_out<R: Wait + Threads + Sync>(rt: &R, alloc: Global) -> Option<bool> {
    Some(all_fail_so(rt, alloc, &said(rt, alloc, 2)?))
}

#[test]
fn failing_links(rt: HostRuntime) {
    assert!(rt; failures_come_out(&rt, rt.alloc()) == Some(true));
}

// Whether a session that the link ended there, within a list, stored the rows that had come, judged in so many calls.
fn is_broken_off(ran: &Ran, at: usize, calls: u64) -> bool {
    ran.answer == Err(SessionEnd::ClosedEarly { at: at as u64 })
        && ran.written.len() == 204
        && ran.times.as_slice() == [100, 101, 102, 200].as_slice()
        && ran.calls == calls
}

// Whether the caller does so on the bytes in front of a part of them.
fn breaks_off<R: Wait + Threads + Sync>(
    rt: &R,
    alloc: Global,
    said: &[u8],
    part: &[u8],
    (most, calls): (usize, u64),
) -> Option<bool> {
    let at = place_of(said, part)?;
    let came = Vec::from_slice(alloc, said.get(..at)?).ok()?;
    let ran = run_on(rt, alloc, Role::Caller, came, most)?;
    Some(is_broken_off(&ran, at, calls))
}

// The link ends within the third of the four rows that the answerer tells. By then the two that came of the list are
// stored, or kept where the log has them.
fn third_is_broken_off<R: Wait + Threads + Sync>(
    rt: &R,
    alloc: Global,
    said: &[u8],
) -> Option<[bool; 2]> {
    let third = signature_at(alloc, 2)?;
    Some([
        breaks_off(rt, alloc, said, &third, (7, 2)) == Some(true),
        breaks_off(rt, alloc, said, &third, (1_000_000, 1)) == Some(true),
    ])
}

// The same of what the other side says.
fn list_is_broken_off<R: Wait + Threads + Sync>(rt: &R, alloc: Global) -> Option<[bool; 2]> {
    third_is_broken_off(rt, alloc, &said(rt, alloc, 2)?)
}

#[test]
fn a_broken_list(rt: HostRuntime) {
    assert!(rt; list_is_broken_off(&rt, rt.alloc()) == Some([true; 2]));
}

// What comes of the caller where its signer fails.
fn run_unsigned<R: Wait + Threads + Sync>(rt: &R, alloc: Global, heard: Vec<u8>) -> Option<Ran> {
    let signer = FailingSigner {
        signer: signer()?,
        failed: 0,
    };
    let link = MemLink::new(alloc, heard, Vec::new(alloc), 1_000_000);
    run_with(rt, alloc, Role::Caller, OWN, signer, link)
}

// Whether it then ends for that reason, behind its hello.
fn fails_to_sign<R: Wait + Threads + Sync>(rt: &R, alloc: Global) -> Option<bool> {
    let ran = run_unsigned(rt, alloc, said(rt, alloc, 2)?)?;
    Some(ran.answer == Err(SessionEnd::SignFault) && ran.written.len() == 136)
}

#[test]
fn a_failing_signer(rt: HostRuntime) {
    assert!(rt; fails_to_sign(&rt, rt.alloc()) == Some(true));
}
