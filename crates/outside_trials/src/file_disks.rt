//! What no clause says of disks that are files: that calls succeed, what is there when a file is opened again, and which
//! calls fail.

use crate::folders::{enter_folder, leave_folder, mode_of};
use peer_real::{FileBay, FileDisk};
use std::fs::{File, OpenOptions};
use std::test::Fail;
use std::{fs, io};
use willow_outside::{Bay, Disk, Fault};

/// Writes five bytes by two calls, of which the second goes over one of the first's.
fn write_five(disk: &mut FileDisk) -> Result<(), Fault> {
    disk.write_at(0, &[1, 2, 3])?;
    disk.write_at(2, &[4, 5, 6])?;
    disk.sync()
}

/// Whether just those five bytes are there: all of them, the last two where there is room for four, and none behind them.
fn has_five(disk: &mut FileDisk) -> Result<bool, Fault> {
    let mut all = [0u8; 5];
    let mut last = [9u8; 4];
    let counts = (
        disk.len()?,
        disk.read_at(0, &mut all)?,
        disk.read_at(3, &mut last)?,
        disk.read_at(7, &mut [0])?,
    );
    Ok(counts == (5, 5, 2, 0) && all == [1, 2, 4, 5, 6] && last == [5, 6, 9, 9])
}

/// Whether a new file is empty, and the five bytes are there when it is opened again.
fn keeps_five(rt: &HostRuntime, name: &str) -> Result<bool, Fault> {
    let mut bay = FileBay::new(rt);
    let mut disk = bay.open(name)?;
    let was_empty = disk.len()? == 0;
    write_five(&mut disk)?;
    bay.give_back(disk);
    Ok(was_empty && has_five(&mut bay.open(name)?)?)
}

/// Whether no disk can be opened by the name.
fn is_no_disk(rt: &HostRuntime, name: &str) -> bool {
    matches!(FileBay::new(rt).open(name), Err(Fault::Failed))
}

/// Whether a write fails where the file is open for reading alone, and a read where it is open for writing alone.
fn fail_where_closed(rt: &HostRuntime, name: &str) -> io::Result<bool> {
    let mut read = FileDisk::new(File::open(rt, name)?);
    let mut written = FileDisk::new(OpenOptions::new().write(true).open(rt, name)?);
    Ok(
        read.write_at(0, &[7]) == Err(Fault::Failed)
            && written.read_at(0, &mut [0]) == Err(Fault::Failed),
    )
}

#[test]
fn a_disk_is_read_back(rt: HostRuntime) -> Result<(), Fail> {
    let folder = "peer-real-disk-folder";
    enter_folder(&rt, folder)?;
    assert!(rt; keeps_five(&rt, "file") == Ok(true));
    assert_eq!(rt; mode_of(&rt, "file")?, 0o600);
    assert!(rt; fail_where_closed(&rt, "file")?);
    leave_folder(&rt, folder)?;
    Ok(())
}

#[test]
fn a_folder_is_no_disk(rt: HostRuntime) -> Result<(), Fail> {
    let folder = "peer-real-no-disk-folder";
    enter_folder(&rt, folder)?;
    fs::create_dir(&rt, "folder")?;
    assert!(rt; is_no_disk(&rt, "folder") && is_no_disk(&rt, "missing/file"));
    leave_folder(&rt, folder)?;
    Ok(())
}
