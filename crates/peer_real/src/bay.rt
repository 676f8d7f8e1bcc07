//! Disks that are files of the folder that the program runs in.

ghost use Rattle.std.specs.Prelude.{◌≡◌, None};

use crate::disk::FileDisk;
use crate::faults::{counted, raised};
use crate::files::{open_or_make, sync_folder};
use std::fs::File;
use std::io;
use std::rt::Files;
use willow_outside::{Bay, Disk, Fault};

/// The files of the current folder as disks, with a count of the faults. What they hold, their names and the disks that
/// came back are not told. A file that is made anew is empty, and can be read and written by its owner alone.
#[derive(Drop)]
pub struct FileBay<R> {
    machine: R,
    faults: u64,
    out: u64,
}

impl<R: Files<File = File> + Drop> FileBay<R> {
    /// The files that `machine` has in its current folder, with counts 0.
    pub fn new(machine: R) -> FileBay<R>
        ensures { ⟦<FileBay<R> as Bay>⟧.facts result ≡ record { faults = 0; out = 0; names = None; asked = None; back = None } }
    {
        FileBay {
            machine,
            faults: 0,
            out: 0,
        }
    }
}

// Opens the file, whose name is on the disk then. An empty one is made where there is none.
fn open_file<R: Files<File = File>>(machine: &R, name: &str) -> io::Result<File> {
    let file = open_or_make(machine, name)?;
    sync_folder(machine)?;
    Ok(file)
}

impl<R: Files<File = File> + Drop> Bay for FileBay<R> {
    type D = FileDisk;

    ghost facts = { λ s. record { faults = s.faults; out = s.out; names = None; asked = None; back = None } };

    fn open(&mut self, name: &str) -> Result<FileDisk, Fault> {
        match (open_file(&self.machine, name), self.out.checked_add(1)) {
            (Ok(file), Some(out)) => {
                self.out = out;
                Ok(FileDisk::new(file))
            }
            (Ok(_), None) => {
                self.faults = raised(self.faults);
                Err(Fault::Failed)
            }
            (Err(error), _) => { Err(counted(&mut self.faults, &error)) }
        }
    }

    /// Closes the file.
    fn give_back(&mut self, _disk: FileDisk) {
        self.out -= 1;
    }
}
