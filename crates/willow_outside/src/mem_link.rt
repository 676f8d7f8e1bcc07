//! A link over bytes in memory, with faults where they are wanted.

ghost use Rattle.std.specs.Prelude.{◌≡◌, ◌≤◌, Some, [], IfOk, length, min};
ghost use Rattle.std.specs.Io.{ReadsAtMost, WritesAtMost};
ghost use Rattle.std.specs.Io.KnownBytes.{ReadConsumes};
ghost use Rattle.willow_outside.specs.Told.{ExtendsBy};
ghost use Rattle.willow_outside.specs.Counts.{CountsFault, EndHasCause, TakesSome};
ghost use Rattle.willow_outside.specs.Plan.{plan_of, called, planned, IsPlanned};

use crate::schedule::Schedule;
use crate::supply::{Supply, count_end};
use crate::{Fault, Link};
use std::alloc::Global;
use std::marker::Model;

/// A link that gives known bytes, keeps what is written, and fails at given calls.
#[derive(Drop)]
pub struct MemLink {
    supply: Supply,
    held: Vec<u8>,
    most: usize,
    schedule: Schedule,
    read_faults: u64,
    write_faults: u64,
    ends: u64,
}

impl Model for MemLink {
    ghost use Rattle.std.specs.Prelude.{◌≤◌};
    ghost use Rattle.willow_outside.specs.InMemory.{MemoryLink};

    ghost Value = { MemoryLink };

    ghost view = { λ s. record { left = s.supply.left; taken = s.supply.given; held = s.held.items; plan = s.schedule; most = s.most; read_faults = s.read_faults; write_faults = s.write_faults; ends = s.ends } };

    ghost invariant = { λ s. 1 ≤ s.most };
}

impl MemLink {
    /// Gives the bytes `left`, and moves at most `most` bytes a call. The calls whose numbers, from 1, are in `fails` fail.
    pub fn new(alloc: Global, left: Vec<u8>, fails: Vec<u64>, most: usize) -> MemLink
        requires { 1 ≤ most }
        ensures value { result ≡ record { left = left.items; taken = []; held = []; plan = plan_of fails.items; most = most; read_faults = 0; write_faults = 0; ends = 0 } }
        ensures facts { ⟦<MemLink as Link>⟧.facts result ≡ record { left = Some left.items; taken = Some []; held = Some []; read_faults = 0; write_faults = 0; ends = 0 } }
    {
        MemLink {
            supply: Supply::new(left),
            held: Vec::new(alloc),
            most,
            schedule: Schedule::new(fails),
            read_faults: 0,
            write_faults: 0,
            ends: 0,
        }
    }

    /// All bytes that were written to the link.
    pub fn held(&self) -> &[u8]
        ensures { (⟦<MemLink as Link>⟧.facts self.now).held ≡ Some result.now }
    {
        &self.held
    }
}

impl Link for MemLink {
    ghost facts = { λ s. record { left = Some s.left; taken = Some s.taken; held = Some s.held; read_faults = s.read_faults; write_faults = s.write_faults; ends = s.ends } };

    ghost most = { λ s. s.most };

    /// Gives as many bytes as there is room for, `most` and those left allow.
    fn read(&mut self, buf: &mut [u8]) -> Result<usize, Fault>
        ensures answer { result ≡ planned self.old.plan (min (min (length buf.new) self.old.most) (length self.old.left)) }
        ensures plan { self.new.plan ≡ called self.old.plan }
        ensures most { self.new.most ≡ self.old.most }
        ensures bound { ReadsAtMost result buf.new }
        ensures at_most { IfOk result (λ n. n ≤ self.old.most) }
        ensures bytes { ReadConsumes (Some self.old.left) (Some self.new.left) result buf.new }
        ensures taken { ExtendsBy (Some self.old.taken) (Some self.new.taken) result buf.new }
        ensures cause { CountsFault self.old.read_faults self.new.read_faults result }
        ensures end { EndHasCause self.old.ends self.new.ends result buf.new }
        ensures held { self.new.held ≡ self.old.held }
        ensures write_faults { self.new.write_faults ≡ self.old.write_faults }
    {
        if self.schedule.next_fails() {
            self.read_faults = self.read_faults.saturating_add(1);
            return Err(Fault::Failed);
        }
        let n = self.supply.give(buf, self.most);
        count_end(&mut self.ends, n, buf);
        Ok(n)
    }

    /// Takes as many bytes as `piece` has and `most` allows.
    fn write(&mut self, piece: &[u8]) -> Result<usize, Fault>
        ensures planned { IsPlanned self.old.plan result }
        ensures count { IfOk result (λ n. n ≡ min (length piece.now) self.old.most) }
        ensures plan { self.new.plan ≡ called self.old.plan }
        ensures most { self.new.most ≡ self.old.most }
        ensures bound { WritesAtMost result piece.now }
        ensures moves { TakesSome result piece.now }
        ensures bytes { ExtendsBy (Some self.old.held) (Some self.new.held) result piece.now }
        ensures cause { CountsFault self.old.write_faults self.new.write_faults result }
        ensures left { self.new.left ≡ self.old.left }
        ensures taken { self.new.taken ≡ self.old.taken }
        ensures read_faults { self.new.read_faults ≡ self.old.read_faults }
        ensures ends { self.new.ends ≡ self.old.ends }
    {
        if self.schedule.next_fails() {
            self.write_faults = self.write_faults.saturating_add(1);
            return Err(Fault::Failed);
        }
        let n = piece.len().min(self.most);
        self.held.extend_from_slice(&piece[..n])?;
        Ok(n)
    }
}
