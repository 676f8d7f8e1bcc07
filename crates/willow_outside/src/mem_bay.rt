//! A bay over disks in memory, with faults where they are wanted.

ghost use Rattle.std.specs.Prelude.{◌≡◌, ◌-◌, ◌≤◌, ◌++◌, ◌∷◌, Some, [], IfOk, map};
ghost use Rattle.willow_outside.specs.Bays.{bytes_under};
ghost use Rattle.willow_outside.specs.Counts.{CountsFault};
ghost use Rattle.willow_outside.specs.DiskRecord.{MemoryDisk, disk_facts_of, left_by, contents_of};
ghost use Rattle.willow_outside.specs.Disks.{LeavesContents};
ghost use Rattle.willow_outside.specs.Links.{AsksPlace as AsksName, HandsOutLink as HandsOutDisk, list_with};
ghost use Rattle.willow_outside.specs.Names.{names_in};
ghost use Rattle.willow_outside.specs.Plan.{plan_of, called, IsPlanned};

use crate::asked::expect_back;
use crate::cabinet::Cabinet;
use crate::returns::Returns;
use crate::schedule::Schedule;
use crate::{Bay, Fault, MemDisk};
use std::alloc::{AllocError, Global};
use std::collections::BTreeMap;
use std::marker::Model;

/// A bay that opens disks with copies of known bytes, and keeps those that come back. It fails at given calls.
/// A name opens anew with the same bytes, whatever was written to its disk.
#[derive(Drop)]
pub struct MemBay {
    cabinet: Cabinet,
    disk_fails: Vec<u64>,
    returns: Returns<MemDisk>,
    asked: Vec<String>,
    schedule: Schedule,
    faults: u64,
    alloc: Global,
}

impl Model for MemBay {
    ghost use Rattle.std.specs.Prelude.{map};
    ghost use Rattle.std.specs.String.{string_bytes};
    ghost use Rattle.willow_outside.specs.BayCode.{bay_code};
    ghost use Rattle.willow_outside.specs.InMemory.{MemoryBay};

    ghost Value = { MemoryBay };

    ghost coded = { bay_code };

    ghost view = { λ s. record { contents = s.cabinet.contents; disk_fails = s.disk_fails.items; back = s.returns.back.items; out = s.returns.out; asked = map string_bytes s.asked.items; plan = s.schedule; faults = s.faults } };
}

impl MemBay {
    /// Opens disks with the bytes of their names in `contents`, and with a copy of `disk_fails` as the numbers of the
    /// disk's calls, from 1, that fail. The bay's own calls whose numbers, from 1, are in `fails` fail; `give_back` is
    /// not counted.
    pub fn new(
        alloc: Global,
        contents: BTreeMap<String, Vec<u8>>,
        fails: Vec<u64>,
        disk_fails: Vec<u64>,
    ) -> MemBay
        ensures value { result ≡ record { contents = contents; disk_fails = disk_fails.items; back = []; out = 0; asked = []; plan = plan_of fails.items; faults = 0 } }
        ensures facts { ⟦<MemBay as Bay>⟧.facts result ≡ record { faults = 0; out = 0; names = Some (names_in contents); asked = Some []; back = Some [] } }
    {
        MemBay {
            cabinet: Cabinet::new(contents),
            disk_fails,
            returns: Returns::new(alloc),
            asked: Vec::new(alloc),
            schedule: Schedule::new(fails),
            faults: 0,
            alloc,
        }
    }

    /// The disks that came back, in order.
    pub fn back(&self) -> &[MemDisk]
        ensures { result.now ≡ self.now.back }
    {
        &self.returns.back
    }

    // A disk with a copy of the bytes under this name.
    fn new_disk(&self, name: &str) -> Result<MemDisk, AllocError>
        ensures { IfOk result (λ disk. disk ≡ record { first = bytes_under (names_in self.now.contents) name.now; calls = []; plan = plan_of self.now.disk_fails; read_faults = 0; write_faults = 0 }) }
    {
        let fails = Vec::from_slice(self.alloc, &self.disk_fails)?;
        let contents = match self.cabinet.copy_of(self.alloc, name)? {
            Some(bytes) => bytes,
            None => Vec::new(self.alloc),
        };
        Ok(MemDisk::new(self.alloc, contents, fails))
    }

    // Counts a disk of this name as out, which has room to come back, or without memory does not.
    fn let_out(&mut self, name: &str) -> Result<(), AllocError>
        ensures out { HandsOutDisk self.old.out self.new.out result }
        ensures asked { AsksName (Some self.old.asked) (Some self.new.asked) name.now result }
        ensures back { self.new.back ≡ self.old.back }
        ensures contents { self.new.contents ≡ self.old.contents }
        ensures disk_fails { self.new.disk_fails ≡ self.old.disk_fails }
        ensures plan { self.new.plan ≡ self.old.plan }
        ensures faults { self.new.faults ≡ self.old.faults }
    {
        expect_back(self.alloc, &mut self.returns, &mut self.asked, name)?;
        self.returns.go_out();
        Ok(())
    }
}

impl Bay for MemBay {
    type D = MemDisk;

    ghost facts = { λ s. record { faults = s.faults; out = s.out; names = Some (names_in s.contents); asked = Some s.asked; back = Some (map disk_facts_of s.back) } };

    fn open(&mut self, name: &str) -> Result<MemDisk, Fault>
        ensures planned { IsPlanned self.old.plan result }
        ensures plan { self.new.plan ≡ called self.old.plan }
        ensures contents { self.new.contents ≡ self.old.contents }
        ensures disk_fails { self.new.disk_fails ≡ self.old.disk_fails }
        ensures disk { IfOk result (λ disk. disk ≡ record { first = bytes_under (names_in self.old.contents) name.now; calls = []; plan = plan_of self.old.disk_fails; read_faults = 0; write_faults = 0 }) }
        ensures images { IfOk result (λ disk. LeavesContents (Some (contents_of disk)) (left_by disk)) }
        ensures out { HandsOutDisk self.old.out self.new.out result }
        ensures asked { AsksName (Some self.old.asked) (Some self.new.asked) name.now result }
        ensures cause { CountsFault self.old.faults self.new.faults result }
        ensures back { self.new.back ≡ self.old.back }
    {
        if self.schedule.next_fails() {
            self.faults = self.faults.saturating_add(1);
            return Err(Fault::Failed);
        }
        let disk = self.new_disk(name)?;
        self.let_out(name)?;
        Ok(disk)
    }

    /// Keeps the disk. It is no call of the schedule.
    fn give_back(&mut self, disk: MemDisk)
        requires { 1 ≤ self.old.out }
        ensures plan { self.new.plan ≡ self.old.plan }
        ensures contents { self.new.contents ≡ self.old.contents }
        ensures disk_fails { self.new.disk_fails ≡ self.old.disk_fails }
        ensures disks { self.new.back ≡ self.old.back ++ disk ∷ [] }
        ensures back { Some (map disk_facts_of self.new.back) ≡ list_with (disk_facts_of disk) (Some (map disk_facts_of self.old.back)) }
        ensures out { self.new.out ≡ self.old.out - 1 }
        ensures asked { self.new.asked ≡ self.old.asked }
        ensures faults { self.new.faults ≡ self.old.faults }
    {
        self.returns.take_back(disk);
    }
}
