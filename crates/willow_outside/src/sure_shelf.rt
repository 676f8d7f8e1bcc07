//! Named bytes in memory, without faults.

ghost use Rattle.std.specs.Prelude.{◌≡◌, Some};
ghost use Rattle.willow_outside.specs.Names.{names_in};

use crate::cabinet::Cabinet;
use crate::{Fault, Shelf};
use std::alloc::Global;
use std::collections::BTreeMap;

/// A shelf that keeps its bytes. Want of memory alone can stop it.
#[derive(Drop)]
pub struct SureShelf {
    cabinet: Cabinet,
    alloc: Global,
}

impl SureShelf {
    /// Holds `contents`.
    pub fn new(alloc: Global, contents: BTreeMap<String, Vec<u8>>) -> SureShelf
        ensures { ⟦<SureShelf as Shelf>⟧.facts result ≡ record { names = Some (names_in contents); read_faults = 0; write_faults = 0 } }
    {
        SureShelf {
            cabinet: Cabinet::new(contents),
            alloc,
        }
    }
}

impl Shelf for SureShelf {
    ghost facts = { λ s. record { names = Some (names_in s.cabinet.contents); read_faults = 0; write_faults = 0 } };

    fn get(&mut self, name: &str) -> Result<Option<Vec<u8>>, Fault> {
        Ok(self.cabinet.copy_of(self.alloc, name)?)
    }

    fn put(&mut self, name: &str, bytes: &[u8]) -> Result<(), Fault> {
        Ok(self.cabinet.replace(self.alloc, name, bytes)?)
    }
}
