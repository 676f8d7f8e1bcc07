//! What no clause says: that calls on real files, noise and streams succeed, and what comes back.

use crate::folders::{enter_folder, leave_folder, mode_of};
use crate::shelves::holds;
use peer_real::{FileShelf, RandomNoise, StdReport, StdSink, StdSource};
use std::fs::Permissions;
use std::os::unix::fs::PermissionsExt;
use std::test::Fail;
use std::{fs, io};
use willow_outside::{Fault, Noise, Shelf, Sink, Source};

/// The mode of the file behind a put.
fn mode_after_put(rt: &HostRuntime, name: &str) -> io::Result<u32> {
    FileShelf::new(rt)
        .put(name, &[1, 2])
        .map_err(|_| io::ErrorKind::Other)?;
    mode_of(rt, name)
}

/// The modes behind the first put of a file and behind one more, before which it was opened to all readers.
fn modes_of_puts(rt: &HostRuntime, name: &str) -> io::Result<(u32, u32)> {
    let first = mode_after_put(rt, name)?;
    fs::set_permissions(rt, name, Permissions::from_mode(0o644))?;
    Ok((first, mode_after_put(rt, name)?))
}

#[test]
fn files_are_replaced_whole(rt: HostRuntime) -> Result<(), Fail> {
    let folder = "peer-real-own-folder";
    enter_folder(&rt, folder)?;
    let name = "file";
    let mut shelf = FileShelf::new(rt);
    assert!(rt; holds(&mut shelf, name, None));
    assert!(rt; shelf.put(name, &[1, 2, 3]) == Ok(()));
    assert!(rt; holds(&mut shelf, name, Some(&[1, 2, 3])));
    assert!(rt; holds(&mut shelf, ".file.new", None));
    assert!(rt; shelf.get("file/below") == Err(Fault::Failed));
    assert!(rt; shelf.put(name, &[4]) == Ok(()));
    assert!(rt; holds(&mut shelf, name, Some(&[4])));
    fs::remove_file(&rt, name)?;
    fs::create_dir(&rt, name)?;
    assert!(rt; shelf.get(name) == Err(Fault::Failed));
    assert!(rt; shelf.put(name, &[5]) == Err(Fault::Failed));
    assert!(rt; holds(&mut shelf, ".file.new", None));
    leave_folder(&rt, folder)?;
    Ok(())
}

#[test]
fn a_new_file_is_for_its_owner_alone(rt: HostRuntime) -> Result<(), Fail> {
    let folder = "peer-real-modes-folder";
    enter_folder(&rt, folder)?;
    assert_eq!(rt; modes_of_puts(&rt, "file")?, (0o600, 0o644));
    leave_folder(&rt, folder)?;
    Ok(())
}

#[test]
fn noise_differs_at_each_draw(rt: HostRuntime) {
    let mut noise = RandomNoise::new(&rt);
    let first = noise.words();
    assert!(rt; first.is_ok());
    assert!(rt; first != Ok([0; 32]));
    assert!(rt; noise.words() != first);
}

#[test]
fn streams_pass_bytes_on(rt: HostRuntime) {
    let mut source = StdSource::new([1u8, 2, 3].as_slice());
    let mut buf = [0u8; 2];
    for want in [2, 1, 0] {
        assert_eq!(rt; source.read(&mut buf), Ok(want));
    }
    assert_eq!(rt; buf, [3, 2]);
    let mut room = [0u8; 3];
    let mut sink = StdSink::new(room.as_mut_slice());
    assert_eq!(rt; sink.write(&[7, 8]), Ok(2));
    assert_eq!(rt; sink.write(&[9, 9]), Ok(1));
    assert_eq!(rt; sink.write(&[9]), Err(Fault::Failed));
    assert_eq!(rt; sink.write(&[]), Ok(0));
}

#[test]
fn the_report_passes_bytes_on(rt: HostRuntime) {
    let mut room = [0u8; 3];
    let mut report = StdReport::new(room.as_mut_slice());
    assert_eq!(rt; report.write(&[7, 8]), Ok(2));
    assert_eq!(rt; report.write(&[9]), Ok(1));
    assert_eq!(rt; room, [7, 8, 9]);
}
