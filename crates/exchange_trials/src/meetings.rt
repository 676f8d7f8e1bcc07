//! Meetings of both versions item by item, and items that are refused, as tables.

use crate::rows::Bytes;
use crate::sides::{Side, Told, refusal, say_just, side};
use std::alloc::Global;
use std::test::*;
use sync_core::{CoreRefusal, Role};

// What two sides of version 1 with forty rows say, where one row is newer on the right.
const FORTY: [Told; 24] = [
    (1, 0),
    (6, 0),
    (3, 0x14),
    (6, 0),
    (2, 0),
    (3, 0x1e),
    (6, 0),
    (4, 10),
    (8, 20),
    (8, 21),
    (8, 22),
    (8, 23),
    (8, 24),
    (8, 25),
    (8, 26),
    (8, 27),
    (8, 28),
    (8, 29),
    (2, 0),
    (6, 0),
    (5, 1),
    (8, 25),
    (7, 0),
    (7, 0),
];

// What they say in version 2: the caller tells the rows of the part in which the row is.
const FORTY_IN_PARTS: [Told; 25] = [
    (1, 0),
    (6, 0),
    (9, 0x0a),
    (10, 0x14),
    (10, 0x1e),
    (6, 0),
    (2, 0),
    (2, 0),
    (4, 10),
    (8, 20),
    (8, 21),
    (8, 22),
    (8, 23),
    (8, 24),
    (8, 25),
    (8, 26),
    (8, 27),
    (8, 28),
    (8, 29),
    (2, 0),
    (6, 0),
    (5, 1),
    (8, 25),
    (7, 0),
    (7, 0),
];

// What is said in version 1 where the left has no row and the right has seventeen.
const SEVENTEEN: [Told; 28] = [
    (1, 0),
    (6, 0),
    (3, 8),
    (6, 0),
    (4, 0),
    (4, 0),
    (6, 0),
    (5, 8),
    (8, 0),
    (8, 1),
    (8, 2),
    (8, 3),
    (8, 4),
    (8, 5),
    (8, 6),
    (8, 7),
    (5, 9),
    (8, 8),
    (8, 9),
    (8, 10),
    (8, 11),
    (8, 12),
    (8, 13),
    (8, 14),
    (8, 15),
    (8, 16),
    (7, 0),
    (7, 0),
];

// And in version 2.
const SEVENTEEN_IN_PARTS: [Told; 34] = [
    (1, 0),
    (6, 0),
    (9, 4),
    (10, 8),
    (10, 12),
    (6, 0),
    (4, 0),
    (4, 0),
    (4, 0),
    (4, 0),
    (6, 0),
    (5, 4),
    (8, 0),
    (8, 1),
    (8, 2),
    (8, 3),
    (5, 4),
    (8, 4),
    (8, 5),
    (8, 6),
    (8, 7),
    (5, 4),
    (8, 8),
    (8, 9),
    (8, 10),
    (8, 11),
    (5, 5),
    (8, 12),
    (8, 13),
    (8, 14),
    (8, 15),
    (8, 16),
    (7, 0),
    (7, 0),
];

// What is said where neither has rows, and where there is no area.
const EMPTY: [Told; 5] = [(1, 0), (6, 0), (2, 0), (7, 0), (7, 0)];

const BYES: [Told; 2] = [(7, 0), (7, 0)];

// The version, the rows of two sides, and whether they have an area.
type Sides = (u8, Bytes, Bytes, bool);

// The sides, what is said, and how many counted items the caller sends and reads.
type Case = (Sides, &'static [Told], (u32, u32));

static CASES: [Case; 8] = [
    ((1, (0, 40, None), (0, 40, Some(25)), true), &FORTY, (4, 3)),
    (
        (2, (0, 40, None), (0, 40, Some(25)), true),
        &FORTY_IN_PARTS,
        (5, 2),
    ),
    ((1, (0, 0, None), (0, 17, None), true), &SEVENTEEN, (3, 3)),
    (
        (2, (0, 0, None), (0, 17, None), true),
        &SEVENTEEN_IN_PARTS,
        (5, 5),
    ),
    ((1, (0, 0, None), (0, 0, None), true), &EMPTY, (1, 1)),
    ((2, (0, 0, None), (0, 0, None), true), &EMPTY, (1, 1)),
    ((1, (0, 40, None), (0, 40, None), false), &BYES, (0, 0)),
    ((2, (0, 40, None), (0, 40, None), false), &BYES, (0, 0)),
];

// Whether two sides, where they could be made, say what the case says.
fn say_so(
    alloc: Global,
    left: Option<&mut Side>,
    right: Option<&mut Side>,
    case: &Case,
) -> Option<bool> {
    let (_, wanted, items) = case;
    Some(say_just(alloc, left?, right?, wanted, *items))
}

// Whether the sides of a case do.
fn meet_so(alloc: Global, case: &Case) -> Option<bool> {
    let ((version, caller, answerer, has_area), _, _) = case;
    say_so(
        alloc,
        side(alloc, *version, Role::Caller, caller, *has_area).as_mut(),
        side(alloc, *version, Role::Answerer, answerer, *has_area).as_mut(),
        case,
    )
}

#[test]
fn meetings(rt: HostRuntime) {
    let alloc = rt.alloc();
    for case in &CASES {
        assert!(rt; meet_so(alloc, case) == Some(true));
    }
}

// A side of version 1, whether it has an area, what it hears, and why it refuses the last item.
type Refusal = (Role, bool, &'static [Told], CoreRefusal);

static REFUSALS: [Refusal; 20] = [
    // a cut at the empty path, of all paths
    (Role::Caller, true, &[(3, 255)], CoreRefusal::BadCut),
    // and at the path of the cut before it
    (
        Role::Caller,
        true,
        &[(3, 20), (6, 0), (3, 20)],
        CoreRefusal::BadCut,
    ),
    // a row above the box below a cut, and one below the box above it
    (
        Role::Caller,
        true,
        &[(3, 20), (6, 0), (4, 1), (8, 20)],
        CoreRefusal::EntryOutside,
    ),
    (
        Role::Caller,
        true,
        &[(3, 20), (6, 0), (4, 1), (8, 9), (4, 1), (8, 9)],
        CoreRefusal::EntryOutside,
    ),
    // a row below the one before it, and the same twice
    (
        Role::Caller,
        true,
        &[(4, 2), (8, 5), (8, 4)],
        CoreRefusal::RowsOutOfOrder,
    ),
    (
        Role::Caller,
        true,
        &[(4, 3), (8, 4), (8, 5), (8, 5)],
        CoreRefusal::RowsOutOfOrder,
    ),
    // the end of a turn or a farewell, where an ask is open, rows are due, or the turn opened none or some
    (Role::Caller, true, &[(6, 0)], CoreRefusal::ItemMismatch),
    (Role::Caller, true, &[(7, 0)], CoreRefusal::ItemMismatch),
    (
        Role::Caller,
        true,
        &[(4, 1), (6, 0)],
        CoreRefusal::ItemMismatch,
    ),
    (
        Role::Caller,
        true,
        &[(2, 0), (6, 0)],
        CoreRefusal::ItemMismatch,
    ),
    (
        Role::Answerer,
        true,
        &[(1, 0), (7, 0)],
        CoreRefusal::ItemMismatch,
    ),
    // a fingerprint of the whole again, or from the side that does not begin
    (
        Role::Answerer,
        true,
        &[(1, 0), (1, 0)],
        CoreRefusal::ItemMismatch,
    ),
    (Role::Caller, true, &[(1, 0)], CoreRefusal::ItemMismatch),
    // another item than it at first, and that one where there is no area
    (Role::Answerer, true, &[(7, 0)], CoreRefusal::ItemMismatch),
    (Role::Answerer, false, &[(1, 0)], CoreRefusal::ItemMismatch),
    // rows that are not due, too many of them, and those that answer rows where a fingerprint is asked
    (Role::Caller, true, &[(8, 5)], CoreRefusal::ItemMismatch),
    (
        Role::Caller,
        true,
        &[(4, 1), (8, 5), (8, 6)],
        CoreRefusal::ItemMismatch,
    ),
    (Role::Caller, true, &[(5, 0)], CoreRefusal::ItemMismatch),
    // a head where rows are due, and a second answer
    (
        Role::Caller,
        true,
        &[(4, 1), (2, 0)],
        CoreRefusal::ItemMismatch,
    ),
    (
        Role::Caller,
        true,
        &[(2, 0), (2, 0)],
        CoreRefusal::ItemMismatch,
    ),
];

// Why a side with forty rows refuses the last of some items, and how many it heard before.
fn refused(alloc: Global, line: &Refusal) -> Option<(u32, CoreRefusal)> {
    let (role, has_area, items, _) = line;
    refusal(
        alloc,
        &mut side(alloc, 1, *role, &(0, 40, None), *has_area)?,
        items,
    )
}

// Whether it is the last of the items, refused so.
fn is_refused_last(alloc: Global, line: &Refusal) -> bool {
    let (_, _, items, wanted) = line;
    match refused(alloc, line) {
        Some((heard, cause)) => items.len() as u64 == u64::from(heard) + 1 && cause == *wanted,
        None => false,
    }
}

#[test]
fn refusals(rt: HostRuntime) {
    let alloc = rt.alloc();
    for refusal in &REFUSALS {
        assert!(rt; is_refused_last(alloc, refusal));
    }
}
