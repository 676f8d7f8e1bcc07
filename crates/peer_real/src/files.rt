//! How files of the current folder are made and opened.

use std::fs::{OpenFile, OpenOptions};
use std::os::unix::fs::OpenOptionsExt;
use std::rt::Files;
use std::{fs, io};

/// The mode of a file that is made anew: its owner alone may read and write it, since it may hold a secret key.
const OWNER_ALONE: u32 = 0o600;

// Makes a file, where there is none of the name, and opens it for writing.
pub(crate) fn make_new<R: Files>(machine: &R, name: &str) -> io::Result<R::File> {
    OpenOptions::new()
        .write(true)
        .create_new(true)
        .mode(OWNER_ALONE)
        .open(machine, name)
}

// Opens a file for reading and writing. An empty one is made where there is none of the name.
pub(crate) fn open_or_make<R: Files>(machine: &R, name: &str) -> io::Result<R::File> {
    OpenOptions::new()
        .read(true)
        .write(true)
        .create(true)
        .mode(OWNER_ALONE)
        .open(machine, name)
}

// Writes the names of the current folder to the disk.
pub(crate) fn sync_folder<R: Files>(machine: &R) -> io::Result<()> {
    fs::open(machine, ".")?.sync_all()
}
