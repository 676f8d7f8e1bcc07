//! Disks that fail.

use crate::fakes::LongDisk;
use crate::files::{Found, begun, copies, keep, namespace, opened, row};
use cap_codec::RawRows;
use log_keeper::{KeepRefusal, LogKeeper};
use spelling::End;
use std::alloc::Global;
use willow_outside::MemDisk;

// A disk of an empty file that fails at the call of this number.
fn failing(alloc: Global, call: u64) -> Option<MemDisk> {
    let fails = vec![in alloc; call].ok()?;
    Some(MemDisk::new(alloc, Vec::new(alloc), fails))
}

// Why a call was refused.
fn refusal(why: End<KeepRefusal>) -> Option<KeepRefusal> {
    match why {
        End::Refused(why) => Some(why),
        End::NoMemory => None,
    }
}

// Why no log is begun where this call fails, and what is then found in the file.
fn beginning(alloc: Global, call: u64) -> Option<(KeepRefusal, Found)> {
    let (disk, why) = begun(alloc, failing(alloc, call)?).err()?;
    Some((refusal(why)?, opened(alloc, disk)))
}

// Whether the beginning of a log fails so at each call from this one on.
fn begins_so(alloc: Global, from: u64, due: &[(KeepRefusal, Found)]) -> bool {
    due.iter()
        .zip(from..)
        .all(|(due, call)| beginning(alloc, call) == Some(*due))
}

#[test]
fn a_log_is_not_opened(rt: HostRuntime) {
    // The sync, the length and the read.
    let due = [
        (KeepRefusal::WriteFailed, Found::Absent),
        (KeepRefusal::ReadFailed, Found::Absent),
        (KeepRefusal::ReadFailed, Found::Absent),
    ];
    assert!(rt; begins_so(rt.alloc(), 1, &due));
}

#[test]
fn a_log_is_not_begun(rt: HostRuntime) {
    let due = [
        // The length.
        (KeepRefusal::ReadFailed, Found::Absent),
        // A closed gate, all behind it, and an open gate, each written and brought to the disk.
        (KeepRefusal::WriteFailed, Found::Absent),
        (KeepRefusal::WriteFailed, Found::Absent),
        (KeepRefusal::WriteFailed, Found::Absent),
        (KeepRefusal::WriteFailed, Found::Absent),
        (KeepRefusal::WriteFailed, Found::Absent),
        (KeepRefusal::WriteFailed, Found::Rows(0)),
    ];
    assert!(rt; begins_so(rt.alloc(), 4, &due));
}

// What is found in a file in which a row is not kept since the writing fails at this call, which breaks the keeper.
fn keeping(alloc: Global, call: u64) -> Option<Found> {
    let mut keeper = begun(alloc, failing(alloc, call)?).ok()??;
    let row = row(alloc)?;
    let slice = copies(alloc, &row, 1)?;
    match keep(&mut keeper, &slice)? {
        Err(End::Refused(KeepRefusal::WriteFailed)) if keeper.is_broken() => {
            Some(opened(alloc, keeper.into_disk()))
        }
        _ => None,
    }
}

// Whether this is found at each call from this one on.
fn keeps_so(alloc: Global, from: u64, due: &[Found]) -> bool {
    due.iter()
        .zip(from..)
        .all(|(due, call)| keeping(alloc, call) == Some(*due))
}

#[test]
fn a_row_is_not_kept(rt: HostRuntime) {
    // The record and its gate, each written and brought to the disk. What a failed sync leaves is there.
    let due = [
        Found::Rows(0),
        Found::Rows(0),
        Found::Rows(0),
        Found::Rows(1),
    ];
    assert!(rt; keeps_so(rt.alloc(), 11, &due));
}

// Why a file of 2^62 bytes is not opened.
fn of_a_long_file(alloc: Global) -> Option<End<KeepRefusal>> {
    let answer = LogKeeper::<RawRows, LongDisk>::open(alloc, LongDisk, &namespace()?);
    let (_disk, why) = answer.err()?;
    Some(why)
}

#[test]
fn a_file_that_is_too_long(rt: HostRuntime) {
    let bad = KeepRefusal::BadLog { at: 1 << 62 };
    assert!(rt; of_a_long_file(rt.alloc()) == Some(End::Refused(bad)));
}
