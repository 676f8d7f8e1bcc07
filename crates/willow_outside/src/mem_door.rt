//! A door over links in memory, with faults where they are wanted.

ghost use Rattle.std.specs.Prelude.{◌≡◌, ◌-◌, ◌≤◌, ◌++◌, ◌∷◌, Some, [], IfOk, map};
ghost use Rattle.std.specs.List.{AllByRecursion};
ghost use Rattle.willow_outside.specs.Counts.{CountsFault, one_more};
ghost use Rattle.willow_outside.specs.Links.{AsksPlace, HandsOutLink, IsFresh, list_with};
ghost use Rattle.willow_outside.specs.Plan.{plan_of, called, IsPlanned, HandsOutPlanned};

use crate::asked::{expect_back, take_down};
use crate::schedule::Schedule;
use crate::traffic::Traffic;
use crate::{Door, Fault, Link};
use std::alloc::Global;
use std::marker::Model;

/// A door that hands out known links in order and keeps those that come back. It fails at given calls,
/// and where no link is left.
#[derive(Drop)]
pub struct MemDoor<L: Link> {
    traffic: Traffic<L>,
    asked: Vec<String>,
    schedule: Schedule,
    accepts: u64,
    faults: u64,
    alloc: Global,
}

impl<L: Link> Model for MemDoor<L> {
    ghost use Rattle.std.specs.Prelude.{Contains, map};
    ghost use Rattle.std.specs.String.{string_bytes};
    ghost use Rattle.willow_outside.specs.InMemory.{MemoryDoor};
    ghost use Rattle.willow_outside.specs.Links.{IsFresh};

    ghost Value = { MemoryDoor L };

    ghost view = { λ s. record { to_come = s.traffic.to_come.items; back = s.traffic.returns.back.items; out = s.traffic.returns.out; asked = map string_bytes s.asked.items; accepts = s.accepts; plan = s.schedule; faults = s.faults } };

    ghost invariant = { λ s. (link : L) → Contains s.traffic.to_come.items link → IsFresh (L.facts link) };
}

impl<L: Link + Send> MemDoor<L> {
    /// Hands out `links`, which are as new. The calls whose numbers, from 1, are in `fails` fail;
    /// `give_back` is not counted.
    pub fn new(alloc: Global, links: Vec<L>, fails: Vec<u64>) -> MemDoor<L>
        requires { AllByRecursion (λ link. IsFresh (L.facts link)) links.items }
        ensures value { result ≡ record { to_come = links.items; back = []; out = 0; asked = []; accepts = 0; plan = plan_of fails.items; faults = 0 } }
        ensures facts { ⟦<MemDoor<L> as Door>⟧.facts result ≡ record { faults = 0; accepts = 0; out = 0; asked = Some []; back = Some [] } }
    {
        MemDoor {
            traffic: Traffic::new(alloc, links),
            asked: Vec::new(alloc),
            schedule: Schedule::new(fails),
            accepts: 0,
            faults: 0,
            alloc,
        }
    }

    /// The links that came back, in order.
    pub fn back(&self) -> &[L]
        ensures { (⟦<MemDoor<L> as Door>⟧.facts self.now).back ≡ Some (map L.facts result.now) }
    {
        &self.traffic.returns.back
    }
}

impl<L: Link + Send> Door for MemDoor<L> {
    type L = L;

    ghost facts = { λ s. record { faults = s.faults; accepts = s.accepts; out = s.out; asked = Some s.asked; back = Some (map L.facts s.back) } };

    fn listen(&mut self, place: &str) -> Result<(), Fault>
        ensures planned { IsPlanned self.old.plan result }
        ensures plan { self.new.plan ≡ called self.old.plan }
        ensures to_come { self.new.to_come ≡ self.old.to_come }
        ensures asked { AsksPlace (Some self.old.asked) (Some self.new.asked) place.now result }
        ensures cause { CountsFault self.old.faults self.new.faults result }
        ensures accepts { self.new.accepts ≡ self.old.accepts }
        ensures out { self.new.out ≡ self.old.out }
        ensures back { self.new.back ≡ self.old.back }
    {
        if self.schedule.next_fails() {
            self.faults = self.faults.saturating_add(1);
            return Err(Fault::Failed);
        }
        take_down(self.alloc, &mut self.asked, place)?;
        Ok(())
    }

    fn accept(&mut self) -> Result<L, Fault>
        ensures planned { HandsOutPlanned self.old.plan self.old.to_come self.new.to_come result }
        ensures plan { self.new.plan ≡ called self.old.plan }
        ensures fresh { IfOk result (λ link. IsFresh (L.facts link)) }
        ensures out { HandsOutLink self.old.out self.new.out result }
        ensures cause { CountsFault self.old.faults self.new.faults result }
        ensures accepts { self.new.accepts ≡ one_more self.old.accepts }
        ensures asked { self.new.asked ≡ self.old.asked }
        ensures back { self.new.back ≡ self.old.back }
    {
        self.accepts = self.accepts.saturating_add(1);
        if self.schedule.next_fails() || self.traffic.to_come.is_empty() {
            self.faults = self.faults.saturating_add(1);
            return Err(Fault::Failed);
        }
        self.traffic.returns.make_room()?;
        Ok(self.traffic.hand_out())
    }

    fn connect(&mut self, place: &str) -> Result<L, Fault>
        ensures planned { HandsOutPlanned self.old.plan self.old.to_come self.new.to_come result }
        ensures plan { self.new.plan ≡ called self.old.plan }
        ensures fresh { IfOk result (λ link. IsFresh (L.facts link)) }
        ensures out { HandsOutLink self.old.out self.new.out result }
        ensures asked { AsksPlace (Some self.old.asked) (Some self.new.asked) place.now result }
        ensures cause { CountsFault self.old.faults self.new.faults result }
        ensures accepts { self.new.accepts ≡ self.old.accepts }
        ensures back { self.new.back ≡ self.old.back }
    {
        if self.schedule.next_fails() || self.traffic.to_come.is_empty() {
            self.faults = self.faults.saturating_add(1);
            return Err(Fault::Failed);
        }
        expect_back(
            self.alloc,
            &mut self.traffic.returns,
            &mut self.asked,
            place,
        )?;
        Ok(self.traffic.hand_out())
    }

    /// Keeps the link. It is no call of the schedule.
    fn give_back(&mut self, link: L)
        requires { 1 ≤ self.old.out }
        ensures plan { self.new.plan ≡ self.old.plan }
        ensures to_come { self.new.to_come ≡ self.old.to_come }
        ensures links { self.new.back ≡ self.old.back ++ link ∷ [] }
        ensures back { Some (map L.facts self.new.back) ≡ list_with (L.facts link) (Some (map L.facts self.old.back)) }
        ensures out { self.new.out ≡ self.old.out - 1 }
        ensures asked { self.new.asked ≡ self.old.asked }
        ensures accepts { self.new.accepts ≡ self.old.accepts }
        ensures faults { self.new.faults ≡ self.old.faults }
    {
        self.traffic.returns.take_back(link);
    }
}
