//! Texts of lines.

use mesh_lines::{MeshLine, MeshText, WrongLine, read_mesh};
use spelling::End;
use std::alloc::Global;
use willow_path::UserKey;

// Texts that are the lines of a mesh.
static RIGHT: [&str; 8] = [
    "nodes 1\n",
    "nodes 64\n",
    "nodes 1\nsame 0 0\n",
    "nodes 2\noffer 1 65535\nsame 0 1\n",
    "nodes 64\nmeet 63 0 any 18446744073709551615\n",
    "nodes 2\nmeet 0 1 005555555555555555555555555555555555555555555555555555555555555501 0\n",
    "nodes 2\nmeet 1 0 01ABCDEFabcdef5555555555555555555555555555555555555555555555555501 7\n",
    "nodes 3\noffer 0 0\noffer 2 1\nmeet 0 1 any 0\nmeet 1 2 any 0\nsame 0 2\n",
];

// Texts that are none, and where their first wrong line begins.
static WRONG: [(&str, u64); 27] = [
    ("", 0),
    ("\n", 0),
    ("nodes 1", 0),
    ("nodes 0\n", 0),
    ("nodes 65\n", 0),
    ("nodes 01\n", 0),
    ("nodes +1\n", 0),
    ("nodes  1\n", 0),
    ("nodes 1 \n", 0),
    ("nodes 2\r\n", 0),
    ("Nodes 2\n", 0),
    ("nodes 2\n\n", 8),
    ("nodes 2\nnodes 2\n", 8),
    ("nodes 2\noffer 2 0\n", 8),
    ("nodes 2\noffer 0 65536\n", 8),
    ("nodes 2\noffer 0 00\n", 8),
    ("nodes 2\noffer 0\n", 8),
    ("nodes 2\noffer 0 0 \n", 8),
    ("nodes 2\nmeet 0 0 any 0\n", 8),
    ("nodes 2\nmeet 0 1 all 0\n", 8),
    ("nodes 2\nmeet 0 1 any\n", 8),
    ("nodes 2\nmeet 0 1 any 18446744073709551616\n", 8),
    (
        "nodes 2\nmeet 0 1 025555555555555555555555555555555555555555555555555555555555555501 0\n",
        8,
    ),
    ("nodes 2\nmeet 0 1 0055 0\n", 8),
    ("nodes 2\nsame 0 1\nsame 0 2\nsame\n", 17),
    ("nodes 2\nsame 0 1\nsame 0 1", 17),
    ("nodes 2\nsame 0 1\noffer \u{e9} 1\n", 17),
];

// Where the text goes wrong; None where it is the lines of a mesh, or there is no memory.
fn wrong_at(alloc: Global, text: &str) -> Option<u64> {
    match read_mesh(alloc, text.as_bytes()) {
        Err(End::Refused(WrongLine { at })) => Some(at),
        _ => None,
    }
}

// Whether the text is the lines of a mesh.
fn is_mesh(alloc: Global, text: &str) -> bool {
    read_mesh(alloc, text.as_bytes()).is_ok()
}

// The lines of the text, where it is those of a mesh.
fn mesh_of(alloc: Global, text: &str) -> Option<MeshText> {
    read_mesh(alloc, text.as_bytes()).ok()
}

#[test]
fn lines_of_a_mesh_are_read(rt: HostRuntime) {
    for text in &RIGHT {
        assert!(rt; is_mesh(rt.alloc(), text));
    }
}

#[test]
fn the_first_wrong_line_is_told(rt: HostRuntime) {
    for (text, at) in &WRONG {
        assert!(rt; wrong_at(rt.alloc(), text) == Some(*at));
    }
}

#[test]
fn lines_say_what_happens(rt: HostRuntime) {
    let text =
        "nodes 5\noffer 4 17\nmeet 3 2 any 9\nmeet 0 4 000000000000000000000000000000000000000000000000000000000000000000 0\nsame 1 1\n";
    let due = [
        MeshLine::Offer { node: 4, row: 17 },
        MeshLine::Meet {
            left: 3,
            right: 2,
            subspace: None,
            from: 9,
        },
        MeshLine::Meet {
            left: 0,
            right: 4,
            subspace: Some(UserKey::least()),
            from: 0,
        },
        MeshLine::Same { left: 1, right: 1 },
    ];
    let read = mesh_of(rt.alloc(), text).is_some_and(|mesh| {
        mesh.nodes == 5 && mesh.lines.as_slice() == due.as_slice()
    });
    assert!(rt; read);
}
