//! A disk in memory with a record of its calls, and with faults where they are wanted.

ghost use Rattle.std.specs.Prelude.{◌≡◌, ◌≤◌, [], Some, true, false, IfOk, OnOk, IsErrOf, length};
ghost use Rattle.willow_outside.specs.declared.disk_tape.DiskCall.TheVariants as disk_calls;
ghost use Rattle.willow_outside.specs.declared.fault.Fault.TheVariants as faults;
ghost use Rattle.willow_outside.specs.Counts.{CountsFault};
ghost use Rattle.willow_outside.specs.DiskLaws.{contents_left, told_always, counts_now, only_now};
ghost use Rattle.willow_outside.specs.DiskRecord.{RecordsPlanned, WritesPlanned, contents_of, disk_facts_of, left_by, left_by_since};
ghost use Rattle.willow_outside.specs.Disks.{written, ReadsAt, Tears, LeavesNoMore, LeavesContents, Elapses};
ghost use Rattle.willow_outside.specs.Plan.{plan_of, called, fails_next, IsPlanned};

use crate::disk_tape::{DiskCall, DiskTape};
use crate::schedule::Schedule;
use crate::{Disk, Fault};
use std::alloc::Global;
use std::marker::Model;

/// A disk that keeps its bytes and a record of all its calls, and fails at given calls. A write that is to fail leaves
/// the bytes, but a crash may leave its range torn. The record lacks a call only where memory was wanting for it.
#[derive(Drop)]
pub struct MemDisk {
    tape: DiskTape,
    schedule: Schedule,
    read_faults: u64,
    write_faults: u64,
}

impl Model for MemDisk {
    ghost use Rattle.willow_outside.specs.DiskRecord.{MemoryDisk};

    ghost Value = { MemoryDisk };

    ghost view = { λ s. record { first = s.tape.first; calls = s.tape.calls; plan = s.schedule; read_faults = s.read_faults; write_faults = s.write_faults } };
}

impl MemDisk {
    /// Holds `contents`, all of them on the disk. The calls whose numbers, from 1, are in `fails` fail.
    pub fn new(alloc: Global, contents: Vec<u8>, fails: Vec<u64>) -> MemDisk
        ensures value { result ≡ record { first = contents.items; calls = []; plan = plan_of fails.items; read_faults = 0; write_faults = 0 } }
        ensures facts { ⟦<MemDisk as Disk>⟧.facts result ≡ record { contents = Some contents.items; read_faults = 0; write_faults = 0 } }
        ensures images { LeavesContents (Some contents.items) (⟦<MemDisk as Disk>⟧.may_leave result) }
    {
        MemDisk {
            tape: DiskTape::new(alloc, contents),
            schedule: Schedule::new(fails),
            read_faults: 0,
            write_faults: 0,
        }
    }

    /// What it held at first.
    pub fn first(&self) -> &[u8]
        ensures { result.now ≡ self.now.first }
    {
        &self.tape.first
    }

    /// Its calls so far, in order.
    pub fn calls(&self) -> &[DiskCall]
        ensures { result.now ≡ self.now.calls }
    {
        &self.tape.calls
    }

    /// All bytes that it holds.
    pub fn contents(&self) -> &[u8]
        ensures { (⟦<MemDisk as Disk>⟧.facts self.now).contents ≡ Some result.now }
    {
        self.tape.contents()
    }
}

impl Disk for MemDisk {
    ghost facts = { λ d. disk_facts_of d };

    ghost may_leave = { λ d c. left_by d c };

    ghost moment = { λ d. length d.calls };

    ghost left_since = { λ d t c. left_by_since d t c };

    ghost contents_left = { λ d c is. contents_left d.first d.calls c is };

    ghost untold = { λ d c untold left. told_always (contents_of d) c (left_by d) untold left };

    ghost counts_now = { λ d t c le left. counts_now d.first d.calls t c le left };

    ghost only_now = { λ d c left. only_now d.first d.calls c left };

    fn len(&mut self) -> Result<u64, Fault>
        ensures planned { IsPlanned self.old.plan result }
        ensures plan { self.new.plan ≡ called self.old.plan }
        ensures first { self.new.first ≡ self.old.first }
        ensures calls { RecordsPlanned self.old.plan self.old.calls self.new.calls disk_calls.Len disk_calls.Len result }
        ensures size { IfOk result (λ n. n ≡ length (contents_of self.old)) }
        ensures contents { contents_of self.new ≡ contents_of self.old }
        ensures images { LeavesNoMore (left_by self.old) (left_by self.new) }
        ensures time { Elapses (length self.old.calls) (length self.new.calls) (left_by_since self.old) (left_by_since self.new) (left_by self.new) }
        ensures cause { CountsFault self.old.read_faults self.new.read_faults result }
        ensures write_faults { self.new.write_faults ≡ self.old.write_faults }
    {
        let fails = self.schedule.next_fails();
        let recorded = self.tape.look(DiskCall::Len);
        if fails {
            self.read_faults = self.read_faults.saturating_add(1);
            return Err(Fault::Failed);
        }
        recorded?;
        Ok(self.tape.contents().len() as u64)
    }

    fn read_at(&mut self, at: u64, buf: &mut [u8]) -> Result<usize, Fault>
        ensures planned { IsPlanned self.old.plan result }
        ensures plan { self.new.plan ≡ called self.old.plan }
        ensures first { self.new.first ≡ self.old.first }
        ensures calls { RecordsPlanned self.old.plan self.old.calls self.new.calls (disk_calls.ReadAt at (length buf.new)) (disk_calls.ReadAt at (length buf.new)) result }
        ensures bound { IfOk result (λ n. n ≤ length buf.new) }
        ensures bytes { IfOk result (λ n. ReadsAt (contents_of self.old) at n buf.new) }
        ensures contents { contents_of self.new ≡ contents_of self.old }
        ensures images { LeavesNoMore (left_by self.old) (left_by self.new) }
        ensures time { Elapses (length self.old.calls) (length self.new.calls) (left_by_since self.old) (left_by_since self.new) (left_by self.new) }
        ensures cause { CountsFault self.old.read_faults self.new.read_faults result }
        ensures write_faults { self.new.write_faults ≡ self.old.write_faults }
    {
        let fails = self.schedule.next_fails();
        let recorded = self.tape.look(DiskCall::ReadAt {
            at,
            size: buf.len(),
        });
        if fails {
            self.read_faults = self.read_faults.saturating_add(1);
            return Err(Fault::Failed);
        }
        recorded?;
        Ok(copy_from(self.tape.contents(), at as usize, buf))
    }

    fn write_at(&mut self, at: u64, bytes: &[u8]) -> Result<(), Fault>
        requires { at ≤ length (contents_of self.old) }
        ensures planned { OnOk result (fails_next self.old.plan ≡ false) }
        ensures plan { self.new.plan ≡ called self.old.plan }
        ensures first { self.new.first ≡ self.old.first }
        ensures calls { WritesPlanned self.old.plan self.old.calls self.new.calls at bytes.now result }
        ensures contents { OnOk result (contents_of self.new ≡ written at bytes.now (contents_of self.old)) }
        ensures images { Tears at (length bytes.now) (left_by self.old) (left_by self.new) }
        ensures time { Elapses (length self.old.calls) (length self.new.calls) (left_by_since self.old) (left_by_since self.new) (left_by self.new) }
        ensures cause { CountsFault self.old.write_faults self.new.write_faults result }
        ensures memory { IsErrOf result faults.NoMemory → ⊥ }
        ensures read_faults { self.new.read_faults ≡ self.old.read_faults }
    {
        let fails = self.schedule.next_fails();
        let ended = self.tape.write(at, bytes, !fails);
        if fails || ended.is_err() {
            self.write_faults = self.write_faults.saturating_add(1);
            return Err(Fault::Failed);
        }
        Ok(())
    }

    fn sync(&mut self) -> Result<(), Fault>
        ensures planned { OnOk result (fails_next self.old.plan ≡ false) }
        ensures plan { self.new.plan ≡ called self.old.plan }
        ensures first { self.new.first ≡ self.old.first }
        ensures calls { RecordsPlanned self.old.plan self.old.calls self.new.calls (disk_calls.Sync true) (disk_calls.Sync false) result }
        ensures synced { OnOk result (LeavesContents (Some (contents_of self.old)) (left_by self.new)) }
        ensures contents { contents_of self.new ≡ contents_of self.old }
        ensures images { LeavesNoMore (left_by self.old) (left_by self.new) }
        ensures time { Elapses (length self.old.calls) (length self.new.calls) (left_by_since self.old) (left_by_since self.new) (left_by self.new) }
        ensures cause { CountsFault self.old.write_faults self.new.write_faults result }
        ensures memory { IsErrOf result faults.NoMemory → ⊥ }
        ensures read_faults { self.new.read_faults ≡ self.old.read_faults }
    {
        let fails = self.schedule.next_fails();
        if fails {
            let _recorded = self.tape.look(DiskCall::Sync { done: false });
            self.write_faults = self.write_faults.saturating_add(1);
            return Err(Fault::Failed);
        }
        if self.tape.sync().is_err() {
            self.write_faults = self.write_faults.saturating_add(1);
            return Err(Fault::Failed);
        }
        Ok(())
    }
}

// Copies the bytes from this place on to the front of `buf`, as many as there is room for.
fn copy_from(bytes: &[u8], at: usize, buf: &mut [u8]) -> usize
    ensures bound { result ≤ length buf.new }
    ensures reads { ReadsAt bytes.now at result buf.new }
{
    if bytes.len() <= at {
        return 0;
    }
    let n = buf.len().min(bytes.len() - at);
    buf[..n].copy_from_slice(&bytes[at..at + n]);
    n
}
