//! Files of the folder that the program runs in.

ghost use Rattle.std.specs.Prelude.{◌≡◌, None};

use crate::faults::{counted, fault_of, raised};
use crate::files::{make_new, sync_folder};
use std::fs::OpenFile;
use std::io::{ErrorKind, Write};
use std::rt::Files;
use std::{fs, io};
use willow_outside::{Fault, Shelf};

/// The files of the current folder, with counts of the faults. What they hold is not told.
/// While a file `NAME` is put, the file `.NAME.new` stands beside it. A file that is made anew can be read and written by
/// its owner alone, and one that is replaced by those who could do so before.
#[derive(Drop)]
pub struct FileShelf<R> {
    machine: R,
    read_faults: u64,
    write_faults: u64,
}

impl<R: Files + AllocGlobal + Drop> FileShelf<R> {
    /// The files that `machine` has in its current folder, with counts 0.
    pub fn new(machine: R) -> FileShelf<R>
        ensures { ⟦<FileShelf<R> as Shelf>⟧.facts result ≡ record { names = None; read_faults = 0; write_faults = 0 } }
    {
        FileShelf {
            machine,
            read_faults: 0,
            write_faults: 0,
        }
    }
}

// Writes all bytes to a new file `beside`, and on to the disk, and then renames it to `name`.
// One that a crash left there goes first. Nobody but its owner can ever open the new file, unless it takes the place of a
// file that passes on who may read and write it.
fn write_beside<R: Files>(machine: &R, beside: &str, name: &str, bytes: &[u8]) -> io::Result<()> {
    let _ = fs::remove_file(machine, beside);
    let mut file = make_new(machine, beside)?;
    match fs::metadata(machine, name) {
        Ok(replaced) if replaced.is_file() => file.set_permissions(replaced.permissions())?,
        _ => {}
    }
    file.write_all(bytes)?;
    file.sync_all()?;
    fs::rename(machine, beside, name)
}

// The name holds its old bytes up to the rename, and from then on the new ones, so no later fault is one of memory.
fn replace<R: Files + AllocGlobal>(machine: &R, name: &str, bytes: &[u8]) -> Result<(), Fault> {
    let beside = format!(in machine.alloc(); ".{name}.new")?;
    if let Err(error) = write_beside(machine, beside.as_str(), name, bytes) {
        let _ = fs::remove_file(machine, beside.as_str());
        return Err(fault_of(&error));
    }
    match sync_folder(machine) {
        Ok(()) => Ok(()),
        Err(_) => Err(Fault::Failed),
    }
}

impl<R: Files + AllocGlobal + Drop> Shelf for FileShelf<R> {
    ghost facts = { λ s. record { names = None; read_faults = s.read_faults; write_faults = s.write_faults } };

    fn get(&mut self, name: &str) -> Result<Option<Vec<u8>>, Fault> {
        match fs::read(&self.machine, name) {
            Ok(bytes) => Ok(Some(bytes)),
            Err(error) if error.kind() == ErrorKind::NotFound => Ok(None),
            Err(error) => { Err(counted(&mut self.read_faults, &error)) }
        }
    }

    fn put(&mut self, name: &str, bytes: &[u8]) -> Result<(), Fault> {
        let ended = replace(&self.machine, name, bytes);
        if ended == Err(Fault::Failed) {
            self.write_faults = raised(self.write_faults);
        }
        ended
    }
}
