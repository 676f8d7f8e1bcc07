//! Given draws in place of noise, with faults where they are wanted.

ghost use Rattle.std.specs.Prelude.{◌≡◌, Some, IfOk, length};
ghost use Rattle.willow_outside.specs.Counts.{CountsFault};
ghost use Rattle.willow_outside.specs.Draws.{IsDraw, Draws};
ghost use Rattle.willow_outside.specs.Plan.{plan_of, called, planned_draw};

use crate::schedule::Schedule;
use crate::{Fault, Noise};
use std::alloc::Global;
use std::marker::Model;

/// Noise that gives known draws and fails at given calls, and where no draw is left.
#[derive(Drop)]
pub struct MemNoise {
    draws: Vec<[u8; 32]>,
    at: usize,
    schedule: Schedule,
    faults: u64,
}

impl Model for MemNoise {
    ghost use Rattle.std.specs.Prelude.{◌≤◌, length, drop};
    ghost use Rattle.willow_outside.specs.InMemory.{MemoryNoise};

    ghost Value = { MemoryNoise };

    ghost view = { λ s. record { draws = drop s.at s.draws.items; plan = s.schedule; faults = s.faults } };

    ghost invariant = { λ s. s.at ≤ length s.draws.items };
}

impl MemNoise {
    /// Gives `draws` in order. The calls whose numbers, from 1, are in `fails` fail.
    pub fn new(_alloc: Global, draws: Vec<[u8; 32]>, fails: Vec<u64>) -> MemNoise
        ensures value { result ≡ record { draws = draws.items; plan = plan_of fails.items; faults = 0 } }
        ensures facts { ⟦<MemNoise as Noise>⟧.facts result ≡ record { draws = Some draws.items; faults = 0 } }
    {
        MemNoise {
            draws,
            at: 0,
            schedule: Schedule::new(fails),
            faults: 0,
        }
    }
}

/// The draw of these 32 bytes.
fn drawn(words: &[u8]) -> [u8; 32]
    requires { length words.now ≡ 32 }
    ensures value { result ≡ words.now }
    ensures size { IsDraw result }
{
    let mut draw = [0; 32];
    draw.copy_from_slice(words);
    draw
}

impl Noise for MemNoise {
    ghost facts = { λ s. record { draws = Some s.draws; faults = s.faults } };

    fn words(&mut self) -> Result<[u8; 32], Fault>
        ensures answer { result ≡ planned_draw self.old.plan self.old.draws }
        ensures plan { self.new.plan ≡ called self.old.plan }
        ensures size { IfOk result IsDraw }
        ensures draws { Draws (Some self.old.draws) (Some self.new.draws) result }
        ensures cause { CountsFault self.old.faults self.new.faults result }
    {
        if self.schedule.next_fails() || self.at == self.draws.len() {
            self.faults = self.faults.saturating_add(1);
            return Err(Fault::Failed);
        }
        let words = drawn(&self.draws[self.at]);
        self.at += 1;
        Ok(words)
    }
}
