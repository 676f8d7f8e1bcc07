//! Meetings of both versions as tables: by hand, and made by `bench/exchange/make.py`.

use crate::areas::Place;
use crate::rows::Bytes;
use crate::stores::{Got, Made, got, have_lengths, met_bytes, met_made, transcript_length};
use hex::FromHex;
use sha2::{Digest, Sha256};
use std::alloc::Global;
use std::test::*;
use sync_pair::PairRun;
use willow_entry::BareRow;

// The version, the rows of two sides, and whether they have an area.
type Sides = (u8, Bytes, Bytes, bool);

// The sides, the lengths of the turns and of the transcript, the number of items, and what the sides got.
type Case = (Sides, &'static [usize], usize, u32, Got, Got);

const NOTHING: Got = (255, 0, 0);

static CASES: [Case; 8] = [
    // forty rows on each side, of which one is newer on the right
    (
        (1, (0, 40, None), (0, 40, Some(25)), true),
        &[34, 70, 71, 2234, 229, 1],
        2669,
        7,
        (20, 10, 1320),
        (25, 1, 125),
    ),
    (
        (2, (0, 40, None), (0, 40, Some(25)), true),
        &[34, 141, 2236, 229, 1],
        2666,
        7,
        (25, 1, 200),
        (20, 10, 1245),
    ),
    // none on the left
    (
        (1, (0, 0, None), (0, 17, None), true),
        &[34, 70, 5, 3802, 1],
        3937,
        6,
        (0, 17, 1836),
        NOTHING,
    ),
    (
        (2, (0, 0, None), (0, 17, None), true),
        &[34, 141, 9, 3812, 1],
        4022,
        10,
        (0, 17, 1836),
        NOTHING,
    ),
    // none at all
    (
        (1, (0, 0, None), (0, 0, None), true),
        &[34, 2, 1],
        52,
        2,
        NOTHING,
        NOTHING,
    ),
    (
        (2, (0, 0, None), (0, 0, None), true),
        &[34, 2, 1],
        52,
        2,
        NOTHING,
        NOTHING,
    ),
    // no area
    (
        (1, (0, 40, None), (0, 40, Some(25)), false),
        &[1, 1],
        12,
        0,
        NOTHING,
        NOTHING,
    ),
    (
        (2, (0, 40, None), (0, 40, Some(25)), false),
        &[1, 1],
        12,
        0,
        NOTHING,
        NOTHING,
    ),
];

// Whether a run is as the table says.
fn is_as_told(run: &PairRun<BareRow>, case: &Case) -> bool {
    let (_, lengths, length, items, to_left, to_right) = case;
    have_lengths(&run.turns, lengths)
        && transcript_length(&run.turns) == *length
        && run.items == *items
        && got(&run.to_left) == *to_left
        && got(&run.to_right) == *to_right
}

// Whether the two sides of a case meet so.
fn meet_so(alloc: Global, case: &Case) -> Option<bool> {
    let ((version, left, right, has_area), _, _, _, _, _) = case;
    let run = met_bytes(alloc, *version, left, right, *has_area)?;
    Some(is_as_told(&run, case))
}

#[test]
fn meetings(rt: HostRuntime) {
    let alloc = rt.alloc();
    for case in &CASES {
        assert!(rt; meet_so(alloc, case) == Some(true));
    }
}

// The version, generated rows, an area, the lengths of the turns, the number of items, how many rows each side gets, and the
// SHA-256 digest of all turns.
type Meeting = (
    u8,
    Made,
    Place,
    &'static [usize],
    u32,
    (usize, usize),
    &'static str,
);

static MADE: [Meeting; 12] = [
    (
        1,
        (60, 1, 16),
        (Some(b'U'), 0, None),
        &[34, 72, 2929, 231, 1],
        5,
        (1, 13),
        "62ae40a885e7dc09c3eb77fd70777bb75c42eb349e37070a0133b9a34b8ea1ec",
    ),
    (
        1,
        (300, 2, 4),
        (None, 0, None),
        &[34, 100, 143, 285, 569, 46596, 17179, 1],
        48,
        (207, 76),
        "8d652fd9ead71d54106d820fb9e97414c923d50480e384d6f56d93fb391f2a3e",
    ),
    (
        1,
        (300, 3, 128),
        (Some(b'V'), 0, None),
        &[34, 72, 141, 215, 3591, 5640, 691, 1],
        24,
        (25, 18),
        "46a38c7302a20b50b54db8f76baae088e45d5ca1661c81529a82bca771f2e611",
    ),
    (
        1,
        (300, 4, 16),
        (None, 120, Some(150)),
        &[34, 100, 143, 285, 19945, 4987, 461, 1],
        28,
        (22, 90),
        "76330057fb9675aeb32e498b243fc34783cf352face06004ae720614e6c6fbea",
    ),
    (
        1,
        (700, 5, 128),
        (None, 0, None),
        &[34, 100, 143, 285, 359, 431, 433, 11040, 1381, 1],
        56,
        (49, 6),
        "06682d65fad00414cbe9861b624b153482445a534a9cf653c5afc077d186e4f3",
    ),
    (
        1,
        (700, 6, 512),
        (None, 0, None),
        &[34, 100, 73, 73, 71, 73, 73, 2025, 6, 1],
        15,
        (9, 0),
        "c2a6991be5bc985826101aa84a02a07f2baaa4a983b8d4d74b11ff5f12bf09d0",
    ),
    (
        2,
        (60, 1, 16),
        (Some(b'U'), 0, None),
        &[34, 147, 1356, 231, 1],
        7,
        (1, 6),
        "4467048027bbbf22c21a07fb28ceb1a85eecd4b973ece7cbb9664f7b6a97bcf1",
    ),
    (
        2,
        (300, 2, 4),
        (None, 0, None),
        &[34, 101, 293, 1165, 47528, 16359, 1],
        76,
        (72, 211),
        "d369df207d1ec890b10d908950e1f11bfc56629f7fb1e3c33f1bdb5cd5bd4cbc",
    ),
    (
        2,
        (300, 3, 128),
        (Some(b'V'), 0, None),
        &[34, 145, 438, 6992, 696, 1],
        22,
        (31, 3),
        "73ea8cd4a7eca01d7601245fd47ff12a9cc6a7cd00f6b61703ec3b3cfd90b4aa",
    ),
    (
        2,
        (300, 4, 16),
        (None, 120, Some(150)),
        &[34, 156, 456, 15600, 5214, 926, 1],
        34,
        (72, 23),
        "ad8ea75aa58339b53ff15d32c5c40702a5d9341b1fd2a2e188c1811b3dbcb890",
    ),
    (
        2,
        (700, 5, 128),
        (None, 0, None),
        &[34, 101, 293, 734, 891, 5427, 1381, 1],
        62,
        (24, 6),
        "78c6cf93c1d4971330dc962a5683bce12e269a8dcb06ae9d0dd0ef9596720eb4",
    ),
    (
        2,
        (700, 6, 512),
        (None, 0, None),
        &[34, 101, 148, 150, 150, 1131, 6, 1],
        17,
        (5, 0),
        "0deb0a4e40ea12749b247ec3b567b113ee0f2486e12f06a05395d26ba75830c7",
    ),
];

// The digest of all turns.
fn digest(turns: &[Vec<u8>]) -> [u8; 32] {
    let mut hasher = Sha256::new();
    for turn in turns {
        hasher.update(turn);
    }
    hasher.finalize()
}

// Whether the digest of all turns is that of these characters.
fn is_digest(turns: &[Vec<u8>], characters: &str) -> bool {
    <[u8; 32] as FromHex>::from_hex(characters).ok() == Some(digest(turns))
}

// Whether the run is as the table says.
fn is_as_made(run: &PairRun<BareRow>, meeting: &Meeting) -> bool {
    let (_, _, _, lengths, items, (to_left, to_right), wanted) = meeting;
    have_lengths(&run.turns, lengths)
        && run.items == *items
        && (run.to_left.len(), run.to_right.len()) == (*to_left, *to_right)
        && is_digest(&run.turns, wanted)
}

// Whether the generated rows meet so.
fn made_meet_so(alloc: Global, meeting: &Meeting) -> Option<bool> {
    let (version, rows, place, _, _, _, _) = meeting;
    let run = met_made(alloc, *version, rows, place)?;
    Some(is_as_made(&run, meeting))
}

#[test]
fn made_meetings(rt: HostRuntime) {
    let alloc = rt.alloc();
    for meeting in &MADE {
        assert!(rt; made_meet_so(alloc, meeting) == Some(true));
    }
}
