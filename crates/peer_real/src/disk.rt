//! A disk that is a file.

ghost use Rattle.std.specs.Prelude.{◌≡◌, ◌≤◌, None, IfOk, length};
ghost use Rattle.std.proofs.lemmas.Option.{none-some};

use crate::faults::{counted, raised};
use std::fs::File;
use std::io;
use std::os::unix::fs::FileExt;
use willow_outside::{Disk, Fault};

/// A file that is open for reading and writing, with counts of the faults. What it holds is not told.
/// Behind a sync that failed no later one succeeds: the machine may have dropped what was to be written.
#[derive(Drop)]
pub struct FileDisk {
    file: File,
    dropped: bool,
    read_faults: u64,
    write_faults: u64,
}

impl FileDisk {
    /// The file, which is open for reading and writing, with counts 0.
    pub fn new(file: File) -> FileDisk
        ensures { ⟦<FileDisk as Disk>⟧.facts result ≡ record { contents = None; read_faults = 0; write_faults = 0 } }
    {
        FileDisk {
            file,
            dropped: false,
            read_faults: 0,
            write_faults: 0,
        }
    }
}

// Fills `buf` with the bytes from this place on, up to the end of the file, and tells how many there were. A place that no
// file has, from 2^63 on, is refused by the machine.
fn read_from(file: &File, at: u64, buf: &mut [u8]) -> io::Result<usize>
    ensures { IfOk result (λ n. n ≤ length buf.new) }
{
    let mut count = 0;
    while count < buf.len() {
        match file.read_at(&mut buf[count..], at.wrapping_add(count as u64))? {
            0 => return Ok(count),
            more => count += more,
        }
    }
    Ok(count)
}

impl Disk for FileDisk {
    ghost facts = { λ s. record { contents = None; read_faults = s.read_faults; write_faults = s.write_faults } };

    ghost may_leave = { λ _ _. ⊥ };

    ghost moment = { λ _. 0 };

    ghost left_since = { λ _ _ _. ⊥ };

    ghost contents_left = { λ _ c told. none-some c told };

    ghost untold = { λ _ _ _ left. left };

    ghost counts_now = { λ _ _ _ _ left. left };

    ghost only_now = { λ _ _ left. left };

    fn len(&mut self) -> Result<u64, Fault> {
        match self.file.metadata() {
            Ok(metadata) => Ok(metadata.len()),
            Err(error) => { Err(counted(&mut self.read_faults, &error)) }
        }
    }

    fn read_at(&mut self, at: u64, buf: &mut [u8]) -> Result<usize, Fault> {
        match read_from(&self.file, at, buf) {
            Ok(count) => Ok(count),
            Err(error) => { Err(counted(&mut self.read_faults, &error)) }
        }
    }

    fn write_at(&mut self, at: u64, bytes: &[u8]) -> Result<(), Fault> {
        if self.file.write_all_at(bytes, at).is_err() {
            self.write_faults = raised(self.write_faults);
            return Err(Fault::Failed);
        }
        Ok(())
    }

    fn sync(&mut self) -> Result<(), Fault> {
        if !self.dropped && self.file.sync_all().is_ok() {
            return Ok(());
        }
        self.dropped = true;
        self.write_faults = raised(self.write_faults);
        Err(Fault::Failed)
    }
}
