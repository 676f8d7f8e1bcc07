//! Meetings of two stores that offer but some of their rows: the newest, as far as limits leave.

use crate::areas::area;
use crate::checks::can_meet;
use crate::keys::key;
use crate::rows::rows_of;
use crate::stores::{Got, got, have_lengths, met, transcript_length};
use area_interest::{Interest, offered};
use block_store::Snapshot;
use std::alloc::Global;
use std::test::*;
use sync_pair::PairRun;
use willow_area::Area;
use willow_entry::BareRow;
use willow_path::NamespaceKey;

// The greatest number of rows and of bytes that are offered, the lengths of the turns and of the transcript, the number of
// items, and what the sides got.
type Case = (
    Option<u32>,
    Option<u64>,
    &'static [usize],
    usize,
    u32,
    Got,
    Got,
);

const NOTHING: Got = (255, 0, 0);

// Forty rows on each side, of which one is newer on the right.
static CASES: [Case; 3] = [
    // the newest of each side: the last on the left, the newer one on the right
    (
        Some(1),
        None,
        &[34, 226, 229, 1],
        510,
        3,
        (25, 1, 200),
        (39, 1, 139),
    ),
    // none, as each has a byte
    (None, Some(0), &[34, 2, 1], 52, 2, NOTHING, NOTHING),
    // the two newest, as the limit of bytes is the lower one
    (
        Some(3),
        Some(2),
        &[34, 449, 229, 1],
        733,
        3,
        (25, 2, 339),
        (38, 1, 138),
    ),
];

// What is offered of the rows in the area.
fn offered_of(
    alloc: Global,
    rows: &Snapshot<BareRow>,
    area: &Area,
    limits: &Interest,
) -> Option<Snapshot<BareRow>> {
    let namespace = NamespaceKey::from_bytes(key(b'N'))?;
    if can_meet(rows, &namespace) && rows.len() <= 65_536 {
        offered(alloc, rows, area, limits).ok()
    } else {
        None
    }
}

// What comes of it where that of two stores meets.
fn met_offers(
    alloc: Global,
    version: u8,
    left: &Snapshot<BareRow>,
    right: &Snapshot<BareRow>,
    area: &Area,
    limits: &Interest,
) -> Option<PairRun<BareRow>> {
    let left = offered_of(alloc, left, area, limits)?;
    let right = offered_of(alloc, right, area, limits)?;
    met(alloc, version, Some(&left), Some(&right), Some(area))
}

// What comes of it where the stores of the cases meet within these limits.
fn met_within(alloc: Global, version: u8, limits: &Interest) -> Option<PairRun<BareRow>> {
    let area = area(alloc, &(Some(b'U'), 0, None))?;
    let left = rows_of(alloc, &(0, 40, None), 102)?;
    let right = rows_of(alloc, &(0, 40, Some(25)), 102)?;
    met_offers(alloc, version, &left, &right, &area, limits)
}

// Whether a run is as the table says.
fn is_as_told(run: &PairRun<BareRow>, case: &Case) -> bool {
    let (_, _, lengths, length, items, to_left, to_right) = case;
    have_lengths(&run.turns, lengths)
        && transcript_length(&run.turns) == *length
        && run.items == *items
        && got(&run.to_left) == *to_left
        && got(&run.to_right) == *to_right
}

// Whether the stores of a case meet so.
fn meet_so(alloc: Global, version: u8, case: &Case) -> Option<bool> {
    let (newest, bytes, _, _, _, _, _) = case;
    let limits = Interest {
        newest: *newest,
        bytes: *bytes,
    };
    Some(is_as_told(&met_within(alloc, version, &limits)?, case))
}

#[test]
fn meetings_within_limits(rt: HostRuntime) {
    let alloc = rt.alloc();
    for case in &CASES {
        for version in [1, 2] {
            assert!(rt; meet_so(alloc, version, case) == Some(true));
        }
    }
}
