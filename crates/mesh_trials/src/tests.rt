//! Meshes of two and three nodes, in both versions.

use crate::runs::{compared, counted};
use mesh_core::MeshEvent;
use std::test::*;
use willow_path::UserKey;

// The first row of the generator, which writer 0 wrote, and the next one, of writer 1.
const FIRST_TO_0: MeshEvent = MeshEvent::Offer { node: 0, row: 0 };

const SECOND_TO_2: MeshEvent = MeshEvent::Offer { node: 2, row: 1 };

// Writer 1 wrote this row at a prefix of the second row's path, and later.
const PREFIX_TO_1: MeshEvent = MeshEvent::Offer { node: 1, row: 49 };

// When the second row was written.
const SECOND_TIME: u64 = 1_700_000_000_000_001;

const MEET_0_1: MeshEvent = MeshEvent::Meet {
    left: 0,
    right: 1,
    subspace: None,
    from: 0,
};

const MEET_1_2: MeshEvent = MeshEvent::Meet {
    left: 1,
    right: 2,
    subspace: None,
    from: 0,
};

// Over what is no older than the second row.
const MEET_2_1_LATE: MeshEvent = MeshEvent::Meet {
    left: 2,
    right: 1,
    subspace: None,
    from: SECOND_TIME,
};

const MEET_1_0_LATE: MeshEvent = MeshEvent::Meet {
    left: 1,
    right: 0,
    subspace: None,
    from: SECOND_TIME,
};

// Nodes 0 and 1 meet over what a writer wrote.
fn meet_over(writer: u8) -> Option<MeshEvent> {
    let mut bytes = [0x55; 33];
    bytes[0] = 0;
    bytes[32] = writer;
    Some(MeshEvent::Meet {
        left: 0,
        right: 1,
        subspace: Some(UserKey::from_bytes(bytes)?),
        from: 0,
    })
}

// Two rows; the first comes to the last node by the second one, and the other way round only once these meet again.
fn once() -> [MeshEvent; 4] {
    [FIRST_TO_0, SECOND_TO_2, MEET_0_1, MEET_1_2]
}

fn twice() -> [MeshEvent; 5] {
    [FIRST_TO_0, SECOND_TO_2, MEET_0_1, MEET_1_2, MEET_0_1]
}

#[test]
fn rows_go_on_from_node_to_node(rt: HostRuntime) {
    let alloc = rt.alloc();
    for version in 1..=2 {
        assert!(rt; compared(alloc, version, 3, &once(), 0, 2) == Some((false, 1, 2)));
        assert!(rt; compared(alloc, version, 3, &twice(), 0, 2) == Some((true, 2, 2)));
        assert!(rt; counted(alloc, version, 3, &once()) == Some(122));
        assert!(rt; counted(alloc, version, 3, &twice()) == Some(222));
        assert!(rt; counted(alloc, version, 3, &[]) == Some(0));
    }
}

// The first row was written before that time, the second one then.
fn later() -> [MeshEvent; 4] {
    [FIRST_TO_0, SECOND_TO_2, MEET_2_1_LATE, MEET_1_0_LATE]
}

#[test]
fn earlier_rows_and_other_subspaces_stay(rt: HostRuntime) {
    let alloc = rt.alloc();
    for version in 1..=2 {
        assert!(rt; counted(alloc, version, 3, &later()) == Some(211));
        let own = meet_over(0).map(|event| counted(alloc, version, 2, &[FIRST_TO_0, event]));
        assert!(rt; own == Some(Some(11)));
        let other = meet_over(1).map(|event| counted(alloc, version, 2, &[FIRST_TO_0, event]));
        assert!(rt; other == Some(Some(10)));
    }
}

// What the row at the prefix dominates goes.
fn pruned() -> [MeshEvent; 5] {
    [FIRST_TO_0, SECOND_TO_2, PREFIX_TO_1, MEET_1_2, MEET_0_1]
}

#[test]
fn dominated_rows_go(rt: HostRuntime) {
    let alloc = rt.alloc();
    for version in 1..=2 {
        assert!(rt; counted(alloc, version, 3, &pruned()) == Some(221));
        assert!(rt; compared(alloc, version, 3, &pruned(), 0, 1) == Some((true, 2, 2)));
        assert!(rt; compared(alloc, version, 3, &pruned(), 1, 2) == Some((false, 2, 1)));
    }
}

// A node meets itself.
const MEET_1_1: MeshEvent = MeshEvent::Meet {
    left: 1,
    right: 1,
    subspace: None,
    from: 0,
};

// What cannot happen is not tried.
#[test]
fn only_what_may_happen_does(rt: HostRuntime) {
    let alloc = rt.alloc();
    assert!(rt; counted(alloc, 3, 3, &once()).is_none());
    assert!(rt; counted(alloc, 2, 2, &once()).is_none());
    assert!(rt; counted(alloc, 2, 3, &[MEET_1_1]).is_none());
}
