//! Files that hold no log, a log, or one that goes wrong.

use crate::files::{Found, joined, opened_bytes};
use std::alloc::Global;

// What is found in the file that the words spell.
fn spelled(alloc: Global, words: &str) -> Found {
    match joined(alloc, words) {
        Some(bytes) => opened_bytes(alloc, bytes),
        None => Found::Other,
    }
}

// Whether each file is found so.
fn are_found(alloc: Global, files: &[(&str, Found)]) -> bool {
    files
        .iter()
        .all(|(words, due)| spelled(alloc, words) == *due)
}

#[test]
fn files_without_a_log(rt: HostRuntime) {
    let files = [
        ("", Found::Absent),
        ("01", Found::Absent),
        // One byte too few.
        ("HEAD", Found::Absent),
        // A first gate that is closed.
        ("00 HEAD", Found::Absent),
        ("07 HEAD 01 000000df ROW 00", Found::Absent),
    ];
    assert!(rt; are_found(rt.alloc(), &files));
}

#[test]
fn files_with_a_log(rt: HostRuntime) {
    let files = [
        ("HEAD 00", Found::Rows(0)),
        ("HEAD 07", Found::Rows(0)),
        ("HEAD 01 000000df ROW 00", Found::Rows(1)),
        (
            "HEAD 01 000000df ROW 01 000001be ROW ROW 02",
            Found::Rows(3),
        ),
        // A record without rows.
        ("HEAD 01 00000000 01 000000df ROW 00", Found::Rows(1)),
        // What stands behind a closed gate does not count.
        ("HEAD 00 000000df ROW 01", Found::Rows(0)),
        ("HEAD 01 000000df ROW 07 000000df ROW 01", Found::Rows(1)),
    ];
    assert!(rt; are_found(rt.alloc(), &files));
}

#[test]
fn bad_files(rt: HostRuntime) {
    let files = [
        // The header of another namespace, and a mark that is another.
        ("OTHER 00", Found::Bad(0)),
        ("01574c4732 HEAD", Found::Bad(0)),
        // The file ends inside a length, in front of a body, and inside it.
        ("HEAD 01 000000", Found::Bad(38)),
        ("HEAD 01 000000df", Found::Bad(38)),
        ("HEAD 01 000000df CUT", Found::Bad(38)),
        // A frame that is cut, with a byte too many behind it, and that of no row.
        ("HEAD 01 000000de CUT 00", Found::Bad(38)),
        ("HEAD 01 000000e0 ROW 00 00", Found::Bad(38)),
        (
            "HEAD 01 000000df ROW 01 00000004 00000000 00",
            Found::Bad(266),
        ),
        // The file ends where a gate is due.
        ("HEAD 01", Found::Bad(38)),
        ("HEAD 01 00000000", Found::Bad(43)),
        ("HEAD 01 000000df ROW", Found::Bad(266)),
    ];
    assert!(rt; are_found(rt.alloc(), &files));
}
