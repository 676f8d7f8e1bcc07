//! Tables of what the stores answer.

use crate::blocks::{Counts, calls_of_thousand, pruned_below, reads_ahead};
use crate::boxes::{Place, fingerprint, found, is_walked, rows_are_shared, shared};
use crate::lists::{List, Outcome, outcome_in_both};
use crate::pairs::{Made, offer_both};
use crate::times::{Told, told_in};
use block_store::laws::numbering;
use hex::FromHex;
use std::alloc::Global;
use std::marker::Brand;
use std::sync::ledger::Blank;
use std::test::*;
use willow_entry::Placed;

const STORED: Placed = Placed::Stored { pruned: 0 };

const PRUNES_ALL: Placed = Placed::Stored { pruned: 130 };

const PRUNES: Placed = Placed::Stored { pruned: 1 };

const KEPT: Placed = Placed::Kept { by: 0 };

// Two rows, offered one after the other: what becomes of the second, and how many rows are left.
static PAIRS: [(Made<'static>, Made<'static>, Placed, u32); 10] = [
    // at an extension, by time: of equal rank both stay, in either order
    (
        (1, b"a", 5, 1, 0x11, 0),
        (1, b"ab", 5, 1, 0x11, 0),
        STORED,
        2,
    ),
    (
        (1, b"ab", 5, 1, 0x11, 0),
        (1, b"a", 5, 1, 0x11, 0),
        STORED,
        2,
    ),
    (
        (1, b"ab", 5, 1, 0x11, 0),
        (1, b"a", 6, 1, 0x11, 0),
        PRUNES,
        1,
    ),
    ((1, b"a", 6, 1, 0x11, 0), (1, b"ab", 5, 1, 0x11, 0), KEPT, 1),
    // then by digest, then by length
    (
        (1, b"a", 5, 9, 0x11, 0),
        (1, b"a", 5, 1, 0x12, 0),
        PRUNES,
        1,
    ),
    (
        (1, b"a", 5, 1, 0x11, 0),
        (1, b"a", 5, 2, 0x11, 0),
        PRUNES,
        1,
    ),
    // of one entry the greater token stays
    (
        (1, b"a", 5, 1, 0x11, 0),
        (1, b"a", 5, 1, 0x11, 1),
        PRUNES,
        1,
    ),
    ((1, b"a", 5, 1, 0x11, 1), (1, b"a", 5, 1, 0x11, 0), KEPT, 1),
    // the row itself, and one in another subspace
    ((1, b"a", 5, 1, 0x11, 0), (1, b"a", 5, 1, 0x11, 0), KEPT, 1),
    (
        (1, b"ab", 5, 1, 0x11, 0),
        (2, b"a", 6, 1, 0x11, 0),
        STORED,
        2,
    ),
];

#[test]
fn pairs_of_rows(rt: HostRuntime) {
    for (first, second, placed, left) in &PAIRS {
        assert!(rt; offer_both(rt.alloc(), first, second) == Some((*placed, *left)));
    }
}

// Of the lists 1 to 24, how many rows are kept out, the sum of the positions of the rows that they are kept
// out by, how many are pruned and how many are left: counted by another program from what it means that a
// row dominates another.
static LISTS: [(u32, u32, u32, u32); 24] = [
    (22, 87, 10, 8),
    (25, 11, 9, 6),
    (17, 75, 17, 6),
    (27, 111, 2, 11),
    (21, 25, 16, 3),
    (19, 81, 8, 13),
    (29, 92, 6, 5),
    (21, 35, 14, 5),
    (17, 90, 8, 15),
    (14, 90, 9, 17),
    (24, 17, 9, 7),
    (22, 100, 9, 9),
    (25, 89, 8, 7),
    (26, 37, 9, 5),
    (16, 78, 8, 16),
    (19, 54, 10, 11),
    (11, 36, 16, 13),
    (21, 43, 13, 6),
    (25, 82, 8, 7),
    (13, 37, 16, 11),
    (17, 29, 13, 10),
    (26, 59, 8, 6),
    (29, 22, 6, 5),
    (16, 50, 10, 14),
];

// The same of the wide lists 1 to 4.
static WIDE_LISTS: [(u32, u32, u32, u32); 4] = [
    (128, 11174, 66, 206),
    (112, 7930, 37, 251),
    (122, 13182, 42, 236),
    (167, 11639, 38, 195),
];

// Whether both stores make of the list of that number what the row of the table tells.
fn come_out(alloc: Global, list: List, row: (u32, u32, u32, u32)) -> bool {
    let (kept, by, pruned, left) = row;
    let wanted = Outcome {
        kept,
        by,
        pruned,
        left,
    };
    outcome_in_both(alloc, list) == Some(wanted)
}

#[test]
fn lists_of_rows(rt: HostRuntime) {
    let mut number = 0u64;
    for row in &LISTS {
        number = number.saturating_add(1);
        let wide = false;
        assert!(rt; come_out(rt.alloc(), List { number, wide }, *row));
    }
}

#[test]
fn wide_lists_of_rows(rt: HostRuntime) {
    let mut number = 0u64;
    for row in &WIDE_LISTS {
        number = number.saturating_add(1);
        let wide = true;
        assert!(rt; come_out(rt.alloc(), List { number, wide }, *row));
    }
}

#[test]
fn a_row_prunes_over_blocks(rt: HostRuntime) {
    assert!(rt; pruned_below(rt.alloc()) == Some((PRUNES_ALL, 1, 130)));
}

// Whether no row is copied for a snapshot, and at most a block for a row beside it.
fn are_shared(calls: &Counts) -> bool {
    calls.copies_to_share == 0 && calls.copies_to_ingest <= 128
}

// Whether each row is read once for two snapshots, and none for a fingerprint of all rows or of a part of each block's.
fn are_read_once(calls: &Counts) -> bool {
    calls.reads_to_share == 1000 && calls.reads_of_all == 0 && calls.reads_of_half == 0
}

#[test]
fn rows_are_shared_and_read_once(rt: HostRuntime) {
    let calls = calls_of_thousand(rt.alloc());
    assert!(rt; calls.is_some_and(|c| are_shared(&c) && are_read_once(&c)));
}

// Of two stores of 2,100 rows each row is read once, and that ahead where there is more than one processor.
#[test]
fn two_stores_are_hashed_ahead(rt: HostRuntime) {
    let reads = reads_ahead(&rt, rt.alloc(), 2100);
    assert!(rt; reads == Some((4200, 4200)) || reads == Some((0, 4200)));
}

// An area, how many of the four rows are in its box, and their positions.
static BOXES: [(Place<'static>, u32, [Option<u32>; 5]); 9] = [
    (
        (None, b"", 0, None),
        4,
        [Some(0), Some(1), Some(2), Some(3), None],
    ),
    (
        (Some(1), b"", 0, None),
        3,
        [Some(0), Some(1), Some(2), None, None],
    ),
    (
        (None, b"a", 0, None),
        3,
        [Some(0), Some(1), Some(3), None, None],
    ),
    (
        (Some(1), b"ab", 0, None),
        1,
        [Some(1), None, None, None, None],
    ),
    (
        (None, b"", 5, Some(6)),
        2,
        [Some(0), Some(1), None, None, None],
    ),
    (
        (None, b"", 6, None),
        2,
        [Some(2), Some(3), None, None, None],
    ),
    ((Some(2), b"b", 0, None), 0, [None; 5]),
    // before and behind all times of the rows
    ((None, b"", 0, Some(5)), 0, [None; 5]),
    ((None, b"", 8, None), 0, [None; 5]),
];

#[test]
fn rows_in_boxes(rt: HostRuntime) {
    let alloc = rt.alloc();
    for (place, count, positions) in &BOXES {
        assert!(rt; found(alloc, place) == Some((*count, *positions)));
    }
}

#[test]
fn walks_over_boxes(rt: HostRuntime) {
    let alloc = rt.alloc();
    for (place, _count, positions) in &BOXES {
        assert!(rt; is_walked(alloc, place, positions) == Some(true));
    }
}

#[test]
fn rows_of_snapshots_are_shared(rt: HostRuntime) {
    assert!(rt; rows_are_shared(rt.alloc()) == Some(true));
}

#[test]
fn snapshots_are_shared(rt: HostRuntime) {
    assert!(rt; shared(rt.alloc()) == Some(4));
}

// An area, and the fingerprint of those of the four rows that are in its box, made by another program. The last
// two are the digest of forty zero bytes.
static FINGERPRINTS: [(Place<'static>, &str); 6] = [
    (
        (None, b"", 0, None),
        "258c823c59a9fed80ccb91ccb677d4822471b711883d7840ef6bbcd3b052641c",
    ),
    (
        (None, b"a", 0, None),
        "84cd6ea5a5c08146cfbc140a7a225212c011bd7706ac3727bff6c9fc41624136",
    ),
    (
        (None, b"", 5, Some(6)),
        "b0f9744c59431c3f56b254512c84f01483b77d2d4caa6edb3b1cce7e85e6867e",
    ),
    (
        (None, b"", 6, None),
        "c8cc0c1580abe05a6f29efd4ec31cbdbd6599859ea88b0df43547e0e28eea9a8",
    ),
    (
        (None, b"", 8, None),
        "2c34ce1df23b838c5abf2a7f6437cca3d3067ed509ff25f11df6b11b582b51eb",
    ),
    (
        (Some(2), b"b", 0, None),
        "2c34ce1df23b838c5abf2a7f6437cca3d3067ed509ff25f11df6b11b582b51eb",
    ),
];

#[test]
fn fingerprints(rt: HostRuntime) -> Result<(), Fail> {
    for (place, wanted) in &FINGERPRINTS {
        let wanted = <[u8; 32] as FromHex>::from_hex(wanted)?;
        assert_eq!(rt;
            fingerprint::<Brand>(rt.alloc(), place, Blank::new(1)),
            Some(wanted)
        );
    }
    Ok(())
}

#[test]
fn the_law_of_positions_can_be_called() {
    numbering();
}

// A box of any or one subspace and of times from the first on and below the second; how many of the rows it includes, by
// a count of the times themselves; the most looks at rows along an order by time.
static TIMES: [(Option<u8>, u64, u64, u32, u64); 4] = [
    (None, 100, 104, 8, 100),
    (Some(2), 100, 104, 4, 100),
    (None, 0, 521, 1024, 500),
    (Some(1), 520, 521, 1, 100),
];

// Whether no call took more looks along the order.
fn looks_at_most(told: &Told, most: u64) -> bool {
    told.counted <= most && told.listed <= most && told.added <= most
}

#[test]
fn rows_of_times(rt: HostRuntime) {
    for (subspace, start, end, rows, most) in &TIMES {
        let told = told_in::<Brand>(rt.alloc(), *subspace, *start, *end, Blank::new(1));
        assert!(rt; told.is_some_and(|t| t.rows == *rows && looks_at_most(&t, *most)));
    }
}
