//! A table of choices, and calls of the laws.

use crate::areas::Place;
use crate::keys::user;
use crate::runs::{Run, chosen};
use range_split::laws::{even_limit, even_parts, limit, next_subspaces, one_choice, parts, sides};
use range_split::{Choice, ENTRIES_MAX};

// A choice that names its subspace by a byte of the key.
enum Wanted {
    Entries,
    AtSubspace(u8),
    AtPathOf(u32),
}

// The choice.
fn choice(wanted: &Wanted) -> Option<Choice> {
    match wanted {
        Wanted::Entries => Some(Choice::Entries),
        Wanted::AtSubspace(byte) => Some(Choice::AtSubspace(user(*byte)?)),
        Wanted::AtPathOf(at) => Some(Choice::AtPathOf(*at)),
    }
}

// All subspaces and times.
const ALL: Place = (None, 0, None);

// The rows of some runs, an area, and what is chosen for the rows in its box.
static CHOICES: [(&[Run], Place, Wanted); 17] = [
    // few rows are told by all of them
    (&[], ALL, Wanted::Entries),
    (&[(b'N', b'U', 0, 16)], ALL, Wanted::Entries),
    (
        &[(b'N', b'U', 0, 16)],
        (Some(b'U'), 0, None),
        Wanted::Entries,
    ),
    // rows of one subspace, at the path of the middle one
    (&[(b'N', b'U', 0, 17)], ALL, Wanted::AtPathOf(8)),
    (
        &[(b'N', b'U', 0, 17)],
        (Some(b'U'), 0, None),
        Wanted::AtPathOf(8),
    ),
    (&[(b'N', b'U', 0, 18)], ALL, Wanted::AtPathOf(9)),
    (&[(b'N', b'U', 0, 33)], ALL, Wanted::AtPathOf(16)),
    // the middle row's subspace is above the first one's
    (
        &[(b'N', b'U', 0, 1), (b'N', b'V', 0, 16)],
        ALL,
        Wanted::AtSubspace(b'V'),
    ),
    (
        &[(b'N', b'U', 0, 3), (b'N', b'V', 0, 3), (b'N', b'W', 0, 11)],
        ALL,
        Wanted::AtSubspace(b'W'),
    ),
    // it is not, and a later one's is
    (
        &[(b'N', b'U', 0, 16), (b'N', b'V', 0, 1)],
        ALL,
        Wanted::AtSubspace(b'V'),
    ),
    (
        &[(b'N', b'U', 0, 16), (b'N', b'V', 0, 1), (b'N', b'W', 0, 1)],
        ALL,
        Wanted::AtSubspace(b'V'),
    ),
    // a box that includes some of the rows only
    (
        &[(b'N', b'U', 0, 41)],
        (None, 110, Some(130)),
        Wanted::AtPathOf(20),
    ),
    (
        &[(b'N', b'U', 0, 41)],
        (None, 110, Some(126)),
        Wanted::Entries,
    ),
    (
        &[(b'N', b'T', 0, 5), (b'N', b'U', 0, 17), (b'N', b'V', 0, 9)],
        (Some(b'U'), 0, None),
        Wanted::AtPathOf(13),
    ),
    // rows of two namespaces, where subspaces do not rise
    (
        &[
            (b'M', b'U', 0, 1),
            (b'M', b'W', 0, 1),
            (b'N', b'U', 0, 15),
            (b'N', b'V', 0, 1),
        ],
        ALL,
        Wanted::AtSubspace(b'V'),
    ),
    (
        &[(b'M', b'V', 0, 1), (b'N', b'U', 0, 20)],
        ALL,
        Wanted::AtPathOf(10),
    ),
    (
        &[(b'M', b'V', 0, 1), (b'M', b'W', 0, 1), (b'N', b'U', 0, 20)],
        ALL,
        Wanted::AtSubspace(b'W'),
    ),
];

#[test]
fn choices(rt: HostRuntime) {
    let alloc = rt.alloc();
    for (runs, place, wanted) in &CHOICES {
        assert!(rt; chosen(alloc, runs, place) == choice(wanted));
    }
}

#[test]
fn the_laws_can_be_called(rt: HostRuntime) {
    even_limit();
    even_parts();
    limit();
    next_subspaces();
    one_choice();
    parts();
    sides();
    assert_eq!(rt; ENTRIES_MAX, 16);
}
