//! Links in memory that go out and come back.

ghost use Rattle.std.specs.Prelude.{◌≡◌, ◌+◌, ◌-◌, ◌^◌, ◌<◌, ◌≤◌, [], ◌∷◌, ◌++◌, OnOk, vec_len, vec_capacity};
ghost use Rattle.std.specs.VecDeque.{deque_len};

use crate::returns::Returns;
use std::alloc::{AllocError, Global};
use std::collections::VecDeque;

/// The links to hand out, those that came back, and how many are out.
#[derive(Drop)]
pub(crate) struct Traffic<L> {
    pub(crate) to_come: VecDeque<L>,
    pub(crate) returns: Returns<L>,
}

impl<L: Drop> Traffic<L> {
    pub(crate) fn new(alloc: Global, links: Vec<L>) -> Traffic<L>
        ensures to_come { result.to_come.items ≡ links.items }
        ensures back { result.returns.back.items ≡ [] }
        ensures out { result.returns.out ≡ 0 }
    {
        Traffic {
            to_come: VecDeque::from(links),
            returns: Returns::new(alloc),
        }
    }

    /// The next link goes out. There is room for it to come back.
    pub(crate) fn hand_out(&mut self) -> L
        requires some { 0 < deque_len self.old.to_come }
        requires room { vec_len self.old.returns.back + self.old.returns.out + 1 ≤ vec_capacity self.old.returns.back }
        requires fits { self.old.returns.out + 1 < 2 ^ 64 }
        ensures next { self.old.to_come.items ≡ result ∷ self.new.to_come.items }
        ensures out { self.new.returns.out ≡ self.old.returns.out + 1 }
        ensures back { self.new.returns.back.items ≡ self.old.returns.back.items }
    {
        self.returns.go_out();
        match self.to_come.pop_front() {
            Some(link) => link,
            None => unreachable!(),
        }
    }
}
