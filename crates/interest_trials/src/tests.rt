//! Tables of what is offered. The numbers stand in the order of places: by subspace, then by path.

use crate::offers::{Limits, offers};
use crate::rows::{Made, Place};
use area_interest::laws::{longest_front, without_limits};
use std::test::*;

const ALL: Place = (None, 0, None);

const OF_U: Place = (Some(b'U'), 0, None);

const OF_V: Place = (Some(b'V'), 0, None);

// By recency these are the rows 4, 5, 2, 3 and 1, with payloads of 2, 5, 3, 100 and 4 bytes.
static FIVE: [Made; 5] = [
    (1, b'U', b'a', 10, 4),
    (2, b'U', b'b', 30, 3),
    (3, b'U', b'c', 20, 100),
    (4, b'U', b'd', 40, 2),
    (5, b'V', b'a', 35, 5),
];

static COUNTS: [(Place, Limits, u64); 9] = [
    (ALL, (Some(0), None), 0),
    (ALL, (Some(1), None), 4),
    (ALL, (Some(2), None), 45),
    (ALL, (Some(3), None), 245),
    (ALL, (Some(5), None), 12_345),
    (ALL, (Some(u32::MAX), None), 12_345),
    // of an area that includes a part
    (OF_U, (Some(2), None), 24),
    (OF_V, (Some(2), None), 5),
    ((None, 20, Some(35)), (Some(1), None), 2),
];

#[test]
fn so_many_rows(rt: HostRuntime) {
    let alloc = rt.alloc();
    for (place, limits, wanted) in &COUNTS {
        assert!(rt; offers(alloc, &FIVE, place, limits) == Some(*wanted));
    }
}

static SUMS: [(Place, Limits, u64); 12] = [
    (ALL, (None, Some(0)), 0),
    (ALL, (None, Some(1)), 0),
    // just a sum, and one less
    (ALL, (None, Some(10)), 245),
    (ALL, (None, Some(9)), 45),
    // the large row goes past the limit, and the one behind it, which would not, is left out with it
    (ALL, (None, Some(14)), 245),
    (ALL, (None, Some(109)), 245),
    (ALL, (None, Some(110)), 2345),
    (ALL, (None, Some(113)), 2345),
    (ALL, (None, Some(114)), 12_345),
    (ALL, (None, Some(u64::MAX)), 12_345),
    (OF_U, (None, Some(5)), 24),
    (OF_U, (None, Some(4)), 4),
];

#[test]
fn so_many_bytes(rt: HostRuntime) {
    let alloc = rt.alloc();
    for (place, limits, wanted) in &SUMS {
        assert!(rt; offers(alloc, &FIVE, place, limits) == Some(*wanted));
    }
}

static BOTH: [(Place, Limits, u64); 7] = [
    (ALL, (Some(2), Some(10)), 45),
    (ALL, (Some(4), Some(10)), 245),
    (ALL, (Some(3), Some(9)), 45),
    (ALL, (Some(0), Some(10)), 0),
    (OF_V, (Some(1), Some(4)), 0),
    // without limits the rows outside the area stay
    (ALL, (None, None), 12_345),
    (OF_V, (None, None), 12_345),
];

#[test]
fn both_limits_and_none(rt: HostRuntime) {
    let alloc = rt.alloc();
    for (place, limits, wanted) in &BOTH {
        assert!(rt; offers(alloc, &FIVE, place, limits) == Some(*wanted));
    }
}

// Payloads whose lengths sum to 2^64 and more, behind one of none; and rows of one rank, of which the lower path is the
// more recent.
const LARGE: [Made; 3] = [
    (1, b'U', b'a', 10, u64::MAX),
    (2, b'U', b'b', 20, 1),
    (3, b'U', b'c', 30, 0),
];

const EQUAL: [Made; 2] = [(1, b'U', b'a', 10, 1), (2, b'U', b'b', 10, 1)];

static OTHERS: [(&[Made], Limits, u64); 6] = [
    (&LARGE, (None, Some(0)), 3),
    (&LARGE, (None, Some(u64::MAX)), 23),
    (&LARGE, (Some(3), None), 123),
    (&EQUAL, (Some(1), None), 1),
    (&EQUAL, (None, Some(1)), 1),
    (&[], (Some(1), None), 0),
];

#[test]
fn large_and_equal_rows(rt: HostRuntime) {
    let alloc = rt.alloc();
    for (rows, limits, wanted) in &OTHERS {
        assert!(rt; offers(alloc, *rows, &ALL, limits) == Some(*wanted));
    }
}

#[test]
fn the_laws_can_be_called() {
    longest_front::<u8>();
    without_limits();
}
