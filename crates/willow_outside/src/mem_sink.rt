//! Bytes kept in memory, with faults where they are wanted.

ghost use Rattle.std.specs.Prelude.{◌≡◌, ◌≤◌, Some, IfOk, length, min};
ghost use Rattle.std.specs.Io.{WritesAtMost};
ghost use Rattle.std.specs.Io.KnownBytes.{WriteAppends};
ghost use Rattle.willow_outside.specs.Counts.{CountsFault, TakesSome};
ghost use Rattle.willow_outside.specs.Plan.{plan_of, called, IsPlanned};

use crate::schedule::Schedule;
use crate::{Fault, Sink};
use std::alloc::Global;
use std::marker::Model;

/// A sink that keeps its bytes and fails at given calls.
#[derive(Drop)]
pub struct MemSink {
    held: Vec<u8>,
    most: usize,
    schedule: Schedule,
    faults: u64,
}

impl Model for MemSink {
    ghost use Rattle.std.specs.Prelude.{◌≤◌};
    ghost use Rattle.willow_outside.specs.InMemory.{MemorySink};

    ghost Value = { MemorySink };

    ghost view = { λ s. record { held = s.held.items; plan = s.schedule; most = s.most; faults = s.faults } };

    ghost invariant = { λ s. 1 ≤ s.most };
}

impl MemSink {
    /// Takes bytes behind `held`, at most `most` of them a call. The calls whose numbers, from 1, are in `fails` fail.
    pub fn new(_alloc: Global, held: Vec<u8>, fails: Vec<u64>, most: usize) -> MemSink
        requires { 1 ≤ most }
        ensures value { result ≡ record { held = held.items; plan = plan_of fails.items; most = most; faults = 0 } }
        ensures facts { ⟦<MemSink as Sink>⟧.facts result ≡ record { held = Some held.items; faults = 0 } }
    {
        MemSink {
            held,
            most,
            schedule: Schedule::new(fails),
            faults: 0,
        }
    }

    /// All bytes that the sink holds.
    pub fn held(&self) -> &[u8]
        ensures { (⟦<MemSink as Sink>⟧.facts self.now).held ≡ Some result.now }
    {
        &self.held
    }
}

impl Sink for MemSink {
    ghost facts = { λ s. record { held = Some s.held; faults = s.faults } };

    /// Takes as many bytes as `piece` has and `most` allows.
    fn write(&mut self, piece: &[u8]) -> Result<usize, Fault>
        ensures planned { IsPlanned self.old.plan result }
        ensures count { IfOk result (λ n. n ≡ min (length piece.now) self.old.most) }
        ensures plan { self.new.plan ≡ called self.old.plan }
        ensures most { self.new.most ≡ self.old.most }
        ensures bound { WritesAtMost result piece.now }
        ensures moves { TakesSome result piece.now }
        ensures bytes { WriteAppends (Some self.old.held) (Some self.new.held) result piece.now }
        ensures cause { CountsFault self.old.faults self.new.faults result }
    {
        if self.schedule.next_fails() {
            self.faults = self.faults.saturating_add(1);
            return Err(Fault::Failed);
        }
        let n = piece.len().min(self.most);
        self.held.extend_from_slice(&piece[..n])?;
        Ok(n)
    }
}
