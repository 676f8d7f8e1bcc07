//! Which calls of an object in memory are to fail.

ghost use Rattle.std.specs.Prelude.{◌≡◌};
ghost use Rattle.willow_outside.specs.Plan.{Plan, plan_of, called, fails_next};

use std::marker::Model;

/// The numbers of the calls that are to fail, counted from 1, and the calls that came.
#[derive(Drop)]
pub(crate) struct Schedule {
    fails: Vec<u64>,
    calls: u64,
}

impl Model for Schedule {
    ghost Value = { Plan };

    ghost view = { λ s. record { fails = s.fails.items; calls = s.calls } };
}

impl Schedule {
    pub(crate) fn new(fails: Vec<u64>) -> Schedule
        ensures { result ≡ plan_of fails.items }
    {
        Schedule { fails, calls: 0 }
    }

    /// Counts one call, and tells whether it is to fail.
    pub(crate) fn next_fails(&mut self) -> bool
        ensures answer { result ≡ fails_next self.old }
        ensures plan { self.new ≡ called self.old }
    {
        self.calls = self.calls.saturating_add(1);
        self.fails.contains(&self.calls)
    }
}
