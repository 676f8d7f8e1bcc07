//! Folders of tests with files.

use std::os::unix::fs::PermissionsExt;
use std::rt::{Env, Files};
use std::{env, fs, io};

/// Goes into the test's own folder, which is empty then. One that a run left which was broken off goes first.
pub(crate) fn enter_folder<R: Files + Env + Alloc>(rt: &R, folder: &str) -> io::Result<()> {
    let _ = fs::remove_dir_all(rt, folder);
    fs::create_dir(rt, folder)?;
    env::set_current_dir(rt, folder)
}

/// Goes back and removes the folder.
pub(crate) fn leave_folder<R: Files + Env + Alloc>(rt: &R, folder: &str) -> io::Result<()> {
    env::set_current_dir(rt, "..")?;
    fs::remove_dir_all(rt, folder)
}

/// The bits of who may read, write and run the file.
pub(crate) fn mode_of<R: Files>(rt: &R, name: &str) -> io::Result<u32> {
    Ok(fs::metadata(rt, name)?.permissions().mode() & 0o777)
}
