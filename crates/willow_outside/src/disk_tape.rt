//! The record of a disk in memory.

ghost use Rattle.std.specs.Prelude.{◌≡◌, ◌≤◌, [], Some, true, IfOk, OnOk, IsTrue, ℕ, cond, length};
ghost use Rattle.willow_outside.specs.DiskRecord.{DiskState, MayLeave, LeftSince, Records, RecordsWrite, after_call, state_now};
ghost use Rattle.willow_outside.specs.declared.disk_tape.DiskCall.TheVariants as disk_calls;
ghost use Rattle.willow_outside.specs.Disks.{written, Tears, LeavesNoMore, LeavesContents, Elapses};

use std::alloc::{AllocError, Global};
use std::marker::Model;

/// One call of a disk.
#[derive(Drop)]
pub enum DiskCall {
    /// The length was asked for.
    Len,
    /// So many bytes were asked for from this place on.
    ReadAt {
        /// The place.
        at: u64,
        /// The number.
        size: usize,
    },
    /// These bytes were written at this place.
    WriteAt {
        /// The place.
        at: u64,
        /// The bytes.
        bytes: Vec<u8>,
        /// Whether the call succeeded. Where it did not, the contents stayed.
        done: bool,
    },
    /// What was written was to be brought to the disk.
    Sync {
        /// Whether the call succeeded.
        done: bool,
    },
}

/// The bytes that a disk held at first, all its calls since, and the bytes that it holds where some were written.
#[derive(Drop)]
pub(crate) struct DiskTape {
    pub(crate) first: Vec<u8>,
    pub(crate) calls: Vec<DiskCall>,
    pub(crate) changed: Option<Vec<u8>>,
    alloc: Global,
}

impl Model for DiskTape {
    ghost use Rattle.std.specs.Prelude.{◌≡◌};
    ghost use Rattle.willow_outside.specs.DiskRecord.{Tape, bytes_or, state_now};

    ghost Value = { Tape };

    ghost view = { λ s. record { first = s.first.items; calls = s.calls.items } };

    ghost invariant = { λ s. bytes_or s.first.items s.changed ≡ (state_now s.first.items s.calls.items).contents };
}

// The bytes with these at this place.
fn spliced(alloc: Global, old: &[u8], at: usize, bytes: &[u8]) -> Result<Vec<u8>, AllocError>
    requires { at ≤ length old.now }
    ensures { IfOk result (λ v. v.items ≡ written at bytes.now old.now) }
{
    let mut new = Vec::from_slice(alloc, &old[..at])?;
    new.extend_from_slice(bytes)?;
    if bytes.len() < old.len() - at {
        new.extend_from_slice(&old[at + bytes.len()..])?;
    }
    Ok(new)
}

// What a write leaves of the bytes.
fn changed(
    alloc: Global,
    old: &[u8],
    at: usize,
    bytes: &[u8],
    done: bool,
) -> Result<Vec<u8>, AllocError>
    requires { at ≤ length old.now }
    ensures { IfOk result (λ v. v.items ≡ cond done (written at bytes.now old.now) old.now) }
{
    if done {
        spliced(alloc, old, at, bytes)
    } else {
        Vec::from_slice(alloc, old)
    }
}

impl DiskTape {
    pub(crate) fn new(alloc: Global, contents: Vec<u8>) -> DiskTape
        ensures { result ≡ record { first = contents.items; calls = [] } }
    {
        DiskTape {
            first: contents,
            calls: Vec::new(alloc),
            changed: None,
            alloc,
        }
    }

    /// The bytes that it holds.
    pub(crate) fn contents(&self) -> &[u8]
        ensures { result.now ≡ (state_now self.now.first self.now.calls).contents }
    {
        match &self.changed {
            Some(bytes) => bytes,
            None => &self.first,
        }
    }

    /// Records a call that changes nothing, or without memory does not.
    pub(crate) fn look(&mut self, call: DiskCall) -> Result<(), AllocError>
        requires { (s : DiskState) → after_call s call ≡ s }
        ensures first { self.new.first ≡ self.old.first }
        ensures calls { Records self.old.calls self.new.calls call result }
        ensures contents { (state_now self.new.first self.new.calls).contents ≡ (state_now self.old.first self.old.calls).contents }
        ensures images { LeavesNoMore (MayLeave (state_now self.old.first self.old.calls)) (MayLeave (state_now self.new.first self.new.calls)) }
        ensures time { Elapses (length self.old.calls) (length self.new.calls) (LeftSince self.old.first self.old.calls) (LeftSince self.new.first self.new.calls) (MayLeave (state_now self.new.first self.new.calls)) }
    {
        self.calls.push(call)?;
        Ok(())
    }

    /// Records a sync that succeeds, or without memory does not.
    pub(crate) fn sync(&mut self) -> Result<(), AllocError>
        ensures first { self.new.first ≡ self.old.first }
        ensures calls { Records self.old.calls self.new.calls (disk_calls.Sync true) result }
        ensures synced { OnOk result (LeavesContents (Some (state_now self.old.first self.old.calls).contents) (MayLeave (state_now self.new.first self.new.calls))) }
        ensures contents { (state_now self.new.first self.new.calls).contents ≡ (state_now self.old.first self.old.calls).contents }
        ensures images { LeavesNoMore (MayLeave (state_now self.old.first self.old.calls)) (MayLeave (state_now self.new.first self.new.calls)) }
        ensures time { Elapses (length self.old.calls) (length self.new.calls) (LeftSince self.old.first self.old.calls) (LeftSince self.new.first self.new.calls) (MayLeave (state_now self.new.first self.new.calls)) }
    {
        self.calls.push(DiskCall::Sync { done: true })?;
        Ok(())
    }

    /// Writes, or where the call is to fail leaves the bytes; records it. Without memory nothing is changed or recorded.
    pub(crate) fn write(&mut self, at: u64, bytes: &[u8], done: bool) -> Result<(), AllocError>
        requires { at ≤ length (state_now self.old.first self.old.calls).contents }
        ensures first { self.new.first ≡ self.old.first }
        ensures calls { RecordsWrite self.old.calls self.new.calls at bytes.now done result }
        ensures contents { OnOk result (IsTrue done → (state_now self.new.first self.new.calls).contents ≡ written at bytes.now (state_now self.old.first self.old.calls).contents) }
        ensures images { Tears at (length bytes.now) (MayLeave (state_now self.old.first self.old.calls)) (MayLeave (state_now self.new.first self.new.calls)) }
        ensures time { Elapses (length self.old.calls) (length self.new.calls) (LeftSince self.old.first self.old.calls) (LeftSince self.new.first self.new.calls) (MayLeave (state_now self.new.first self.new.calls)) }
    {
        let copy = Vec::from_slice(self.alloc, bytes)?;
        let new = changed(self.alloc, self.contents(), at as usize, bytes, done)?;
        self.calls.push(DiskCall::WriteAt {
            at,
            bytes: copy,
            done,
        })?;
        self.changed = Some(new);
        Ok(())
    }
}
