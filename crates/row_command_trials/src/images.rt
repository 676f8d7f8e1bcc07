//! Listings of images of both versions, against texts made elsewhere.

use crate::bytes::{
    BELOW, BELOW_2, BELOW_SECOND, HEAD, HEAD_2, HEAD_OF_TWO, NEW, NEW_2, NO_ROW, OLD, OLD_2,
    ONE_ROW, OTHER, SPOILT, SPOILT_2, TWO_ROWS, at_path, joined,
};
use crate::endings::{Ended, ending_of, shown};
use auth_entry::PlainChecker;
use lms_core::PeerScheme;
use mc_cap::{RefusedRow, RowRefusal};
use peer_rows::show;
use peer_stage::ShowCounts;
use std::alloc::Global;
use std::thread::Threads;
use willow_outside::{MemSink, MemSource};

// The listing of no row, in either namespace,
const NONE: &str =
    "namespace 004e4e4e4e4e4e4e4e4e4e4e4e4e4e4e4e4e4e4e4e4e4e4e4e4e4e4e4e4e4e4e4e rows 0\n";

const NONE_OF_OTHER: &str =
    "namespace 004c4c4c4c4c4c4c4c4c4c4c4c4c4c4c4c4c4c4c4c4c4c4c4c4c4c4c4c4c4c4c4c rows 0\n";
// of the row at time 6, and its head alone,
const NEW_LISTED: &str =
    "namespace 004e4e4e4e4e4e4e4e4e4e4e4e4e4e4e4e4e4e4e4e4e4e4e4e4e4e4e4e4e4e4e4e rows 1\n005555555555555555555555555555555555555555555555555555555555555555 /61 6 1 1111111111111111111111111111111111111111111111111111111111111111\n";

const NEW_HEAD: &str =
    "namespace 004e4e4e4e4e4e4e4e4e4e4e4e4e4e4e4e4e4e4e4e4e4e4e4e4e4e4e4e4e4e4e4e rows 1\n";
// of the row at time 5,
const OLD_LISTED: &str =
    "namespace 004e4e4e4e4e4e4e4e4e4e4e4e4e4e4e4e4e4e4e4e4e4e4e4e4e4e4e4e4e4e4e4e rows 1\n005555555555555555555555555555555555555555555555555555555555555555 /61 5 1 1111111111111111111111111111111111111111111111111111111111111111\n";
// and of that and the one below it.
const BOTH_LISTED: &str =
    "namespace 004e4e4e4e4e4e4e4e4e4e4e4e4e4e4e4e4e4e4e4e4e4e4e4e4e4e4e4e4e4e4e4e rows 2\n005555555555555555555555555555555555555555555555555555555555555555 /61 5 1 1111111111111111111111111111111111111111111111111111111111111111\n005555555555555555555555555555555555555555555555555555555555555555 /61/62 5 1 1111111111111111111111111111111111111111111111111111111111111111\n";

// How the showing of the input ends, where it writes this text.
fn ends_with(
    rt: &(impl Threads + Sync),
    alloc: Global,
    input: &mut MemSource,
    output: &mut MemSink,
    text: &str,
) -> Option<Ended> {
    let end = show::<PlainChecker<PeerScheme>, _, _, _>(rt, alloc, None, input, output);
    let end = ending_of(end);
    (output.held() == text.as_bytes()).then_some(end)
}

// A call of this number that fails, or none for 0.
fn fault(alloc: Global, number: u64) -> Option<Vec<u64>> {
    Vec::from_slice(alloc, &[number]).ok()
}

// How the showing of the image ends, where it writes this text, and the calls of these numbers fail.
fn shows(
    rt: &(impl Threads + Sync),
    alloc: Global,
    image: Vec<u8>,
    read_fault: u64,
    write_fault: u64,
    text: &str,
) -> Option<Ended> {
    let (reads, writes) = (fault(alloc, read_fault)?, fault(alloc, write_fault)?);
    let mut input = MemSource::new(alloc, image, reads, 100);
    let mut output = MemSink::new(alloc, Vec::new(alloc), writes, 100);
    ends_with(rt, alloc, &mut input, &mut output, text)
}

// The texts of an image, how many of its last bytes are missing, what is written, and how the showing ends.
type Shown = ([&'static str; 4], usize, &'static str, Ended);

static SHOWN: [Shown; 8] = [
    (
        [HEAD, "", "", NO_ROW],
        0,
        NONE,
        Ended::Shown(ShowCounts {
            rows: 0,
            refused: 0,
            first: None,
        }),
    ),
    (
        [HEAD, NEW, "", ONE_ROW],
        0,
        NEW_LISTED,
        Ended::Shown(ShowCounts {
            rows: 1,
            refused: 0,
            first: None,
        }),
    ),
    ([HEAD, NEW, "", ONE_ROW], 1, "", Ended::Bad(260)),
    (
        [HEAD, OLD, BELOW, TWO_ROWS],
        0,
        BOTH_LISTED,
        Ended::Shown(ShowCounts {
            rows: 2,
            refused: 0,
            first: None,
        }),
    ),
    ([HEAD, BELOW, OLD, TWO_ROWS], 0, "", Ended::NotRising(2)),
    ([HEAD, NEW, BELOW, TWO_ROWS], 0, "", Ended::Pruned(2, 1)),
    (
        [HEAD, OLD, SPOILT, TWO_ROWS],
        0,
        OLD_LISTED,
        Ended::Shown(ShowCounts {
            rows: 2,
            refused: 1,
            first: Some(RefusedRow {
                row: 2,
                refusal: RowRefusal::BadEntrySignature,
            }),
        }),
    ),
    (
        [OTHER, OLD, BELOW, TWO_ROWS],
        0,
        NONE_OF_OTHER,
        Ended::Shown(ShowCounts {
            rows: 2,
            refused: 2,
            first: Some(RefusedRow {
                row: 1,
                refusal: RowRefusal::WrongNamespace,
            }),
        }),
    ),
];

// Whether the showing ends so.
fn is_shown(rt: &(impl Threads + Sync), alloc: Global, line: &Shown) -> Option<bool> {
    let (texts, cut, text, due) = line;
    let mut image = joined(alloc, texts)?;
    image.truncate(image.len().saturating_sub(*cut));
    Some(shows(rt, alloc, image, 0, 0, text) == Some(*due))
}

#[test]
fn images_shown(rt: HostRuntime) {
    let alloc = rt.alloc();
    for line in &SHOWN {
        assert!(rt; is_shown(&rt, alloc, line) == Some(true));
    }
}

// What is written of an image of version 2 whose rows are all authorised, and how many these are.
type Told = ([&'static str; 4], &'static str, u64);

static TOLD: [Told; 2] = [
    ([HEAD_2, NEW_2, "", ONE_ROW], NEW_LISTED, 1),
    ([HEAD_2, OLD_2, BELOW_2, TWO_ROWS], BOTH_LISTED, 2),
];

// How an image of version 2 is refused, and how many of its last bytes are missing: a capability is missing, a row is, or
// their number; no row tells the one capability, or the second; there is no capability of that number.
static REFUSED: [([&str; 4], usize, u64); 6] = [
    ([HEAD_2, "", "", ""], 1, 41),
    ([HEAD_2, OLD_2, BELOW_2, ""], 1, 272),
    ([HEAD_2, OLD_2, BELOW_2, TWO_ROWS], 1, 433),
    ([HEAD_2, "", "", NO_ROW], 0, 113),
    ([HEAD_OF_TWO, OLD_2, BELOW_2, TWO_ROWS], 0, 505),
    ([HEAD_2, OLD_2, BELOW_SECOND, TWO_ROWS], 0, 272),
];

#[test]
fn images_of_version_2_shown(rt: HostRuntime) {
    let alloc = rt.alloc();
    for (texts, text, rows) in &TOLD {
        let line = (*texts, 0, *text, shown(*rows, 0, None));
        assert!(rt; is_shown(&rt, alloc, &line) == Some(true));
    }
    for (texts, cut, at) in &REFUSED {
        let line = (*texts, *cut, "", Ended::Bad(*at));
        assert!(rt; is_shown(&rt, alloc, &line) == Some(true));
    }
}

static FAULTY: [&str; 3] = [HEAD, NEW, ONE_ROW];

// How the showing of an image ends, where it writes this text, and the call of this number fails.
fn shows_fault(
    rt: &(impl Threads + Sync),
    alloc: Global,
    read_fault: u64,
    write_fault: u64,
    text: &str,
) -> Option<Ended> {
    let image = joined(alloc, &FAULTY)?;
    shows(rt, alloc, image, read_fault, write_fault, text)
}

#[test]
fn faults_end_a_showing(rt: HostRuntime) {
    let alloc = rt.alloc();
    let ends = [
        shows_fault(&rt, alloc, 2, 0, ""),
        shows_fault(&rt, alloc, 0, 2, NEW_HEAD),
    ];
    assert!(rt; ends == [Some(Ended::ReadFault), Some(Ended::WriteFault)]);
}

// Puts the frames of so many rows below all others behind the image, whose signatures are of another entry.
fn add_many(image: &mut Vec<u8>, frame: &mut [u8], many: u16) -> Option<()> {
    for i in 0..many {
        at_path(frame, i.to_be_bytes(), 5)?;
        image.extend_from_slice(frame).ok()?;
    }
    Some(())
}

// Puts the frame of a row at this place below /61 behind the image, where one is asked for, and tells how many it puts.
fn add_between(image: &mut Vec<u8>, frame: &mut [u8], between: Option<u8>) -> Option<u64> {
    let Some(low) = between else {
        return Some(0);
    };
    at_path(frame, [0x61, low], 7)?;
    image.extend_from_slice(frame).ok()?;
    Some(1)
}

// Puts the bytes of a text behind the image.
fn add(alloc: Global, image: &mut Vec<u8>, text: &str) -> Option<()> {
    image.extend_from_slice(&joined(alloc, &[text])?).ok()
}

// The head of an image, and a row of two components as it tells these: of version 1; of version 2 with one capability and
// with two, of which those rows have the first.
type Front = [&'static str; 2];

const VERSION_1: Front = [HEAD, BELOW];

const VERSION_2: Front = [HEAD_2, BELOW_2];

const OF_TWO: Front = [HEAD_OF_TWO, BELOW_2];

// So many rows below all others, a row between where one is asked for, and the rows of two frames.
type Rows = (u16, Option<u8>, [&'static str; 2]);

// Puts those rows and their number behind the image's head; the frame is one of a row of two components.
fn add_rows(alloc: Global, image: &mut Vec<u8>, frame: &mut [u8], rows: &Rows) -> Option<()> {
    let (many, between, frames) = rows;
    add_many(image, frame, *many)?;
    add(alloc, image, frames[0])?;
    let count = u64::from(*many) + 2 + add_between(image, frame, *between)?.min(1);
    add(alloc, image, frames[1])?;
    image.extend_from_slice(&count.to_be_bytes()).ok()
}

// The image of those rows.
fn behind_others(alloc: Global, front: &Front, rows: &Rows) -> Option<Vec<u8>> {
    let [head, row] = front;
    let mut frame = joined(alloc, &[*row])?;
    let mut image = joined(alloc, &[*head])?;
    add_rows(alloc, &mut image, &mut frame, rows)?;
    Some(image)
}

// How the showing of that image ends, where it writes this text.
fn shows_behind(
    rt: &(impl Threads + Sync),
    alloc: Global,
    front: &Front,
    rows: &Rows,
    text: &str,
) -> Option<Ended> {
    let image = behind_others(alloc, front, rows)?;
    shows(rt, alloc, image, 0, 0, text)
}

// Images of two parts that are listed: how many rows stand in front, which row between and which frames behind them, the
// listing, and how many rows are read and refused. The first row of a part is refused, or is the first that is not.
static LISTED: [(Front, Rows, &str, u64, u64); 8] = [
    (VERSION_1, (511, None, [OLD, BELOW]), BOTH_LISTED, 513, 511),
    (VERSION_1, (511, None, [OLD, SPOILT]), OLD_LISTED, 513, 512),
    (VERSION_1, (512, None, [OLD, SPOILT]), OLD_LISTED, 514, 513),
    (
        VERSION_1,
        (510, Some(0), [OLD, BELOW]),
        BOTH_LISTED,
        513,
        511,
    ),
    (
        VERSION_2,
        (511, None, [OLD_2, BELOW_2]),
        BOTH_LISTED,
        513,
        511,
    ),
    (
        VERSION_2,
        (512, None, [OLD_2, SPOILT_2]),
        OLD_LISTED,
        514,
        513,
    ),
    (
        VERSION_2,
        (510, Some(0), [OLD_2, BELOW_2]),
        BOTH_LISTED,
        513,
        511,
    ),
    // The second capability is told by a row of the second part alone, and grants nothing there.
    (
        OF_TWO,
        (511, None, [OLD_2, BELOW_SECOND]),
        OLD_LISTED,
        513,
        512,
    ),
];

// Rows are read 512 at a time.
#[test]
fn images_of_two_parts(rt: HostRuntime) {
    let alloc = rt.alloc();
    let refusal = RowRefusal::BadEntrySignature;
    let first = Some(RefusedRow { row: 1, refusal });
    for (front, behind, text, rows, refused) in &LISTED {
        let due = shown(*rows, *refused, first);
        assert!(rt; shows_behind(&rt, alloc, front, behind, text) == Some(due));
    }
}

// Others that are not: the first row of the second part falls, or is dominated by the last of the part before, or by one
// that is not the last. In version 2 also: a row of the second part tells a number too great, and no row of either part
// tells the second capability.
static NOT_LISTED: [(Front, Rows, Ended); 8] = [
    (VERSION_1, (511, None, [BELOW, OLD]), Ended::NotRising(513)),
    (
        VERSION_1,
        (511, None, [NEW, BELOW]),
        Ended::Pruned(513, 512),
    ),
    (
        VERSION_1,
        (510, Some(0), [NEW, BELOW]),
        Ended::Pruned(513, 511),
    ),
    (
        VERSION_2,
        (511, None, [BELOW_2, OLD_2]),
        Ended::NotRising(513),
    ),
    (
        VERSION_2,
        (511, None, [NEW_2, BELOW_2]),
        Ended::Pruned(513, 512),
    ),
    (
        VERSION_2,
        (510, Some(0), [NEW_2, BELOW_2]),
        Ended::Pruned(513, 511),
    ),
    (
        VERSION_2,
        (511, None, [OLD_2, BELOW_SECOND]),
        Ended::Bad(82_543),
    ),
    (OF_TWO, (511, None, [OLD_2, BELOW_2]), Ended::Bad(82_776)),
];

#[test]
fn images_of_two_parts_that_are_refused(rt: HostRuntime) {
    let alloc = rt.alloc();
    for (front, behind, due) in &NOT_LISTED {
        assert!(rt; shows_behind(&rt, alloc, front, behind, "") == Some(*due));
    }
}
