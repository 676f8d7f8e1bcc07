//! What is written while a log is begun and while slices are kept in it.

use crate::files::{Found, Keeper, begun, copies, joined, keep, namespace, opened, row};
use log_keeper::Opened;
use std::alloc::Global;
use willow_outside::{DiskCall, MemDisk};

// The keeper of a log that is begun in an empty file.
fn new_keeper(alloc: Global) -> Option<Keeper> {
    let disk = MemDisk::new(alloc, Vec::new(alloc), Vec::new(alloc));
    begun(alloc, disk).ok()?
}

// The number that is answered for so many copies of a row.
fn number_of(alloc: Global, keeper: &mut Keeper, count: usize) -> Option<u64> {
    let row = row(alloc)?;
    let slice = copies(alloc, &row, count)?;
    keep(keeper, &slice)?.ok()
}

// The numbers that are answered for one row and for 256, and the place of the closed gate behind each.
fn numbers(alloc: Global) -> Option<[u64; 4]> {
    let mut keeper = new_keeper(alloc)?;
    let first = number_of(alloc, &mut keeper, 1)?;
    let place = keeper.end();
    let more = number_of(alloc, &mut keeper, 256)?;
    Some([first, place, more, keeper.end()])
}

#[test]
fn rows_are_counted(rt: HostRuntime) {
    // A record of one row has 5 + 223 bytes, and one of 256 rows has 5 + 256 * 223.
    assert!(rt; numbers(rt.alloc()) == Some([1, 266, 257, 57_359]));
}

// Whether the file of a new log, and that with one row, are what the words spell.
fn is_spelled(alloc: Global) -> Option<bool> {
    let mut keeper = new_keeper(alloc)?;
    let _number = number_of(alloc, &mut keeper, 1)?;
    let disk = keeper.into_disk();
    let due = joined(alloc, "HEAD 01 000000df ROW 00")?;
    Some(disk.contents() == due.as_slice() && due.len() == 267 && due.get(38) == Some(&1))
}

#[test]
fn a_file_with_a_row(rt: HostRuntime) {
    assert!(rt; is_spelled(rt.alloc()) == Some(true));
}

// The keeper of the log on a disk that is opened again.
fn reopened(alloc: Global, disk: MemDisk) -> Option<Keeper> {
    match Keeper::open(alloc, disk, &namespace()?).ok()? {
        Opened::Absent(_disk) => None,
        Opened::Log {
            keeper,
            rows: _rows,
        } => Some(keeper),
    }
}

// The file of a log in which a row is kept, and two others once it was opened again, with the number that is answered then.
fn kept_on(alloc: Global) -> Option<(MemDisk, u64)> {
    let mut keeper = new_keeper(alloc)?;
    let _number = number_of(alloc, &mut keeper, 1)?;
    let mut keeper = reopened(alloc, keeper.into_disk())?;
    let number = number_of(alloc, &mut keeper, 2)?;
    Some((keeper.into_disk(), number))
}

// Whether that file is what the words spell.
fn is_kept_on(alloc: Global) -> Option<bool> {
    let (disk, number) = kept_on(alloc)?;
    let due = joined(alloc, "HEAD 01 000000df ROW 01 000001be ROW ROW 00")?;
    Some(number == 3 && disk.contents() == due.as_slice())
}

#[test]
fn a_file_that_is_opened_again(rt: HostRuntime) {
    assert!(rt; is_kept_on(rt.alloc()) == Some(true));
}

// Whether a new log has 39 bytes, and nothing else is found in its file.
fn is_new(alloc: Global) -> Option<bool> {
    let disk = new_keeper(alloc)?.into_disk();
    let is_due = disk.contents() == joined(alloc, "HEAD 00")?.as_slice()
        && disk.contents().len() == 39;
    Some(is_due && opened(alloc, disk) == Found::Rows(0))
}

#[test]
fn a_new_file(rt: HostRuntime) {
    assert!(rt; is_new(rt.alloc()) == Some(true));
}

// What a call of a disk did: it wrote so many bytes at a place, it brought them to the disk, or it only read.
#[derive(Clone, Copy, Debug, PartialEq, Eq)]
enum Did {
    Write(u64, usize),
    Sync,
    Read,
}

fn deed(call: &DiskCall) -> Did {
    match call {
        DiskCall::WriteAt { at, bytes, .. } => Did::Write(*at, bytes.len()),
        DiskCall::Sync { .. } => Did::Sync,
        DiskCall::Len | DiskCall::ReadAt { .. } => Did::Read,
    }
}

// Whether the calls did just so.
fn are_just(calls: &[DiskCall], due: &[Did]) -> bool {
    calls.len() == due.len() && calls.iter().zip(due).all(|(call, due)| deed(call) == *due)
}

// Whether a disk on which a log is begun and 256 rows are kept has just these calls.
fn has_calls(alloc: Global, due: &[Did]) -> Option<bool> {
    let mut keeper = new_keeper(alloc)?;
    let _number = number_of(alloc, &mut keeper, 256)?;
    Some(are_just(keeper.into_disk().calls(), due))
}

#[test]
fn each_byte_is_written_once(rt: HostRuntime) {
    let due = [
        // The file is opened.
        Did::Sync,
        Did::Read,
        Did::Read,
        // A log is begun.
        Did::Read,
        Did::Write(0, 1),
        Did::Sync,
        Did::Write(1, 38),
        Did::Sync,
        Did::Write(0, 1),
        Did::Sync,
        // The rows are kept: a length, 256 frames of 223 bytes and a gate, and the gate before them.
        Did::Write(39, 57_093),
        Did::Sync,
        Did::Write(38, 1),
        Did::Sync,
    ];
    assert!(rt; has_calls(rt.alloc(), &due) == Some(true));
}
