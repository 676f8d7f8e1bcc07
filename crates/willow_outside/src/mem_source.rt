//! Bytes in memory, read in pieces, with faults where they are wanted.

ghost use Rattle.std.specs.Prelude.{◌≡◌, ◌≤◌, Some, length, min};
ghost use Rattle.std.specs.Io.{ReadsAtMost};
ghost use Rattle.std.specs.Io.KnownBytes.{ReadConsumes};
ghost use Rattle.willow_outside.specs.Counts.{CountsFault, EndHasCause};
ghost use Rattle.willow_outside.specs.Plan.{plan_of, called, planned};

use crate::schedule::Schedule;
use crate::supply::{Supply, count_end};
use crate::{Fault, Source};
use std::alloc::Global;
use std::marker::Model;

/// A source of given bytes that fails at given calls.
#[derive(Drop)]
pub struct MemSource {
    supply: Supply,
    most: usize,
    schedule: Schedule,
    faults: u64,
    ends: u64,
}

impl Model for MemSource {
    ghost use Rattle.std.specs.Prelude.{◌≤◌};
    ghost use Rattle.willow_outside.specs.InMemory.{MemorySource};

    ghost Value = { MemorySource };

    ghost view = { λ s. record { left = s.supply.left; plan = s.schedule; most = s.most; faults = s.faults; ends = s.ends } };

    ghost invariant = { λ s. 1 ≤ s.most };
}

impl MemSource {
    /// Gives the bytes `left`, at most `most` of them a call. The calls whose numbers, from 1, are in `fails` fail.
    pub fn new(_alloc: Global, left: Vec<u8>, fails: Vec<u64>, most: usize) -> MemSource
        requires { 1 ≤ most }
        ensures value { result ≡ record { left = left.items; plan = plan_of fails.items; most = most; faults = 0; ends = 0 } }
        ensures facts { ⟦<MemSource as Source>⟧.facts result ≡ record { left = Some left.items; faults = 0; ends = 0 } }
    {
        MemSource {
            supply: Supply::new(left),
            most,
            schedule: Schedule::new(fails),
            faults: 0,
            ends: 0,
        }
    }
}

impl Source for MemSource {
    ghost facts = { λ s. record { left = Some s.left; faults = s.faults; ends = s.ends } };

    /// Gives as many bytes as there is room for, `most` and those left allow.
    fn read(&mut self, buf: &mut [u8]) -> Result<usize, Fault>
        ensures answer { result ≡ planned self.old.plan (min (min (length buf.new) self.old.most) (length self.old.left)) }
        ensures plan { self.new.plan ≡ called self.old.plan }
        ensures most { self.new.most ≡ self.old.most }
        ensures bound { ReadsAtMost result buf.new }
        ensures bytes { ReadConsumes (Some self.old.left) (Some self.new.left) result buf.new }
        ensures cause { CountsFault self.old.faults self.new.faults result }
        ensures end { EndHasCause self.old.ends self.new.ends result buf.new }
    {
        if self.schedule.next_fails() {
            self.faults = self.faults.saturating_add(1);
            return Err(Fault::Failed);
        }
        let n = self.supply.give(buf, self.most);
        count_end(&mut self.ends, n, buf);
        Ok(n)
    }
}
