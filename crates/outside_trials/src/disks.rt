//! Disks and bays in memory, and what a crash may leave of a disk.

use std::collections::BTreeMap;
use willow_outside::{Bay, Disk, DiskCall, Fault, MemBay, MemDisk};

/// Whether the image is the bytes with a write of so many from this place on torn: any bytes there, a length between the
/// old one and the new one, and the same bytes elsewhere.
fn is_torn(old: &[u8], at: usize, size: usize, image: &[u8]) -> bool {
    let end = at.saturating_add(size);
    old.len() <= image.len()
        && image.len() <= old.len().max(end)
        && image.get(..at) == old.get(..at)
        && (old.len() <= end || image.get(end..) == old.get(end..))
}

/// Whether a crash may leave the image of a disk to which nothing or one piece was written since it was last synced, where
/// it was synced before it was written to alone. This is read off the record of its calls.
fn may_leave(disk: &MemDisk, image: &[u8]) -> bool {
    let mut pending = None;
    for call in disk.calls() {
        match call {
            DiskCall::WriteAt { at, bytes, done: _ } => pending = Some((*at, bytes.len())),
            DiskCall::Sync { done: true } => pending = None,
            _ => (),
        }
    }
    match pending {
        Some((at, size)) => is_torn(disk.first(), at as usize, size, image),
        None => image == disk.contents(),
    }
}

/// Whether a crash may leave each of these images and none of those.
fn leaves_only(disk: &MemDisk, left: &[&[u8]], not_left: &[&[u8]]) -> bool {
    left.iter().all(|image| may_leave(disk, image))
        && !not_left.iter().any(|image| may_leave(disk, image))
}

/// Writes over the last byte and on.
fn write_at_last(disk: &mut MemDisk, bytes: &[u8]) -> Result<(), Fault> {
    let at = disk.contents().len().saturating_sub(1);
    disk.write_at(at as u64, bytes)
}

#[test]
fn a_disk_keeps_bytes_at_places(rt: HostRuntime) -> Result<(), Fault> {
    let alloc = rt.alloc();
    let mut buf = [0u8; 4];
    let mut disk = MemDisk::new(alloc, vec![in alloc; 1, 2, 3]?, vec![in alloc; 2, 4, 6, 8]?);
    assert!(rt; disk.len() == Ok(3));
    assert!(rt; disk.len() == Err(Fault::Failed));
    assert!(rt; disk.read_at(1, &mut buf) == Ok(2));
    assert!(rt; buf == [2, 3, 0, 0]);
    assert!(rt; disk.read_at(1, &mut buf) == Err(Fault::Failed));
    assert!(rt; write_at_last(&mut disk, &[8, 9]) == Ok(()));
    assert!(rt; write_at_last(&mut disk, &[7, 7]) == Err(Fault::Failed));
    assert!(rt; disk.sync() == Ok(()));
    assert!(rt; disk.sync() == Err(Fault::Failed));
    assert!(rt; disk.contents() == [1, 2, 8, 9].as_slice());
    assert!(rt; disk.calls().len() == 8);
    Ok(())
}

#[test]
fn a_crash_may_tear_what_is_not_synced(rt: HostRuntime) -> Result<(), Fault> {
    let alloc = rt.alloc();
    let torn: [&[u8]; 4] = [&[1, 2, 3], &[1, 2, 0], &[1, 2, 5, 6], &[1, 2, 8, 9]];
    let never: [&[u8]; 4] = [&[1, 2], &[0, 2, 3], &[1, 7, 8, 9], &[1, 2, 8, 9, 0]];
    let mut disk = MemDisk::new(alloc, vec![in alloc; 1, 2, 3]?, vec![in alloc; 2]?);
    write_at_last(&mut disk, &[8, 9])?;
    assert!(rt; leaves_only(&disk, &torn, &never));
    assert!(rt; disk.sync() == Err(Fault::Failed));
    assert!(rt; leaves_only(&disk, &torn, &never));
    disk.sync()?;
    assert!(rt; leaves_only(&disk, &torn[3..], &torn[..3]));
    Ok(())
}

#[test]
fn disks_go_out_and_come_back(rt: HostRuntime) -> Result<(), Fault> {
    let alloc = rt.alloc();
    let mut contents = BTreeMap::new(alloc);
    contents.insert(String::from_str(alloc, "a")?, vec![in alloc; 1, 2]?)?;
    let mut bay = MemBay::new(alloc, contents, vec![in alloc; 2]?, vec![in alloc; 1]?);
    let mut disk = bay.open("a")?;
    assert!(rt; disk.len() == Err(Fault::Failed));
    assert!(rt; disk.len() == Ok(2));
    assert!(rt; bay.open("a").is_err());
    let other = bay.open("b")?;
    assert!(rt; other.contents().is_empty());
    bay.give_back(disk);
    bay.give_back(other);
    assert!(rt; bay.back().len() == 2);
    assert!(rt; bay.back()[0].calls().len() == 2);
    Ok(())
}
