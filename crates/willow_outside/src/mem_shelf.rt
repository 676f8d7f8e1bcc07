//! Named bytes in memory, with faults where they are wanted.

ghost use Rattle.std.specs.Prelude.{◌≡◌, Some, IfOk};
ghost use Rattle.std.specs.Option.{option_map};
ghost use Rattle.willow_outside.specs.Counts.{CountsFault};
ghost use Rattle.willow_outside.specs.Names.{names_in, NeedsMemoryIfHeld, PutsName};
ghost use Rattle.willow_outside.specs.Plan.{plan_of, called, IsPlanned, PutsPlanned};

use crate::cabinet::Cabinet;
use crate::schedule::Schedule;
use crate::{Fault, Shelf};
use std::alloc::Global;
use std::collections::BTreeMap;
use std::marker::Model;

/// A shelf that keeps its bytes and fails at given calls. A put that is to fail leaves the new bytes.
#[derive(Drop)]
pub struct MemShelf {
    cabinet: Cabinet,
    schedule: Schedule,
    read_faults: u64,
    write_faults: u64,
    alloc: Global,
}

impl Model for MemShelf {
    ghost use Rattle.willow_outside.specs.InMemory.{MemoryShelf};

    ghost Value = { MemoryShelf };

    ghost use Rattle.willow_outside.specs.ShelfCode.{shelf_code};

    ghost coded = { shelf_code };

    ghost view = { λ s. record { contents = s.cabinet.contents; plan = s.schedule; read_faults = s.read_faults; write_faults = s.write_faults } };
}

impl MemShelf {
    /// Holds `contents`. The calls whose numbers, from 1, are in `fails` fail.
    pub fn new(alloc: Global, contents: BTreeMap<String, Vec<u8>>, fails: Vec<u64>) -> MemShelf
        ensures value { result ≡ record { contents = contents; plan = plan_of fails.items; read_faults = 0; write_faults = 0 } }
        ensures facts { ⟦<MemShelf as Shelf>⟧.facts result ≡ record { names = Some (names_in contents); read_faults = 0; write_faults = 0 } }
    {
        MemShelf {
            cabinet: Cabinet::new(contents),
            schedule: Schedule::new(fails),
            read_faults: 0,
            write_faults: 0,
            alloc,
        }
    }
}

impl Shelf for MemShelf {
    ghost facts = { λ s. record { names = Some (names_in s.contents); read_faults = s.read_faults; write_faults = s.write_faults } };

    fn get(&mut self, name: &str) -> Result<Option<Vec<u8>>, Fault>
        ensures planned { IsPlanned self.old.plan result }
        ensures plan { self.new.plan ≡ called self.old.plan }
        ensures found { IfOk result (λ found. names_in self.old.contents name.now ≡ option_map (λ v. v.items) found) }
        ensures memory { NeedsMemoryIfHeld (Some (names_in self.old.contents)) name.now result }
        ensures names { self.new.contents ≡ self.old.contents }
        ensures cause { CountsFault self.old.read_faults self.new.read_faults result }
        ensures write_faults { self.new.write_faults ≡ self.old.write_faults }
    {
        if self.schedule.next_fails() {
            self.read_faults = self.read_faults.saturating_add(1);
            return Err(Fault::Failed);
        }
        Ok(self.cabinet.copy_of(self.alloc, name)?)
    }

    fn put(&mut self, name: &str, bytes: &[u8]) -> Result<(), Fault>
        ensures planned { PutsPlanned self.old.plan (Some (names_in self.old.contents)) (Some (names_in self.new.contents)) name.now bytes.now result }
        ensures plan { self.new.plan ≡ called self.old.plan }
        ensures names { PutsName (Some (names_in self.old.contents)) (Some (names_in self.new.contents)) name.now bytes.now result }
        ensures cause { CountsFault self.old.write_faults self.new.write_faults result }
        ensures read_faults { self.new.read_faults ≡ self.old.read_faults }
    {
        let fails = self.schedule.next_fails();
        self.cabinet.replace(self.alloc, name, bytes)?;
        if fails {
            self.write_faults = self.write_faults.saturating_add(1);
            return Err(Fault::Failed);
        }
        Ok(())
    }
}
