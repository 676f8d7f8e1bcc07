//! Where links come from.

ghost use Rattle.std.specs.Prelude.{◌≡◌, ◌-◌, ◌≤◌, IfOk};
ghost use Rattle.willow_outside.specs.Counts.{CountsFault, one_more};
ghost use Rattle.willow_outside.specs.Facts.{DoorFacts};
ghost use Rattle.willow_outside.specs.Links.{AsksPlace, HandsOutLink, IsFresh, list_with};

use crate::{Fault, Link};

/// Where links come from: the network, or links in memory. A `place` has the form `HOST:PORT`.
pub trait Door {
    type L: Link + Send;

    ghost facts: { Self → DoorFacts };

    /// Waits for links at `place` from now on. `Failed` comes only where `faults` rose.
    fn listen(&mut self, place: &str) -> Result<(), Fault>
        ensures asked { AsksPlace (facts self.old).asked (facts self.new).asked place.now result }
        ensures cause { CountsFault (facts self.old).faults (facts self.new).faults result }
        ensures accepts { (facts self.new).accepts ≡ (facts self.old).accepts }
        ensures out { (facts self.new).out ≡ (facts self.old).out }
        ensures back { (facts self.new).back ≡ (facts self.old).back };

    /// A link from one who asked for a place that is listened at. `Failed` comes only where `faults` rose. Each call is
    /// counted, whatever it answers.
    fn accept(&mut self) -> Result<Self::L, Fault>
        ensures fresh { IfOk result (λ link. IsFresh (Self.L.facts link)) }
        ensures out { HandsOutLink (facts self.old).out (facts self.new).out result }
        ensures cause { CountsFault (facts self.old).faults (facts self.new).faults result }
        ensures accepts { (facts self.new).accepts ≡ one_more (facts self.old).accepts }
        ensures asked { (facts self.new).asked ≡ (facts self.old).asked }
        ensures back { (facts self.new).back ≡ (facts self.old).back };

    /// A link to `place`. `Failed` comes only where `faults` rose.
    fn connect(&mut self, place: &str) -> Result<Self::L, Fault>
        ensures fresh { IfOk result (λ link. IsFresh (Self.L.facts link)) }
        ensures out { HandsOutLink (facts self.old).out (facts self.new).out result }
        ensures asked { AsksPlace (facts self.old).asked (facts self.new).asked place.now result }
        ensures cause { CountsFault (facts self.old).faults (facts self.new).faults result }
        ensures accepts { (facts self.new).accepts ≡ (facts self.old).accepts }
        ensures back { (facts self.new).back ≡ (facts self.old).back };

    /// Takes back a link, for which there is room since it was handed out.
    fn give_back(&mut self, link: Self::L)
        requires { 1 ≤ (facts self.old).out }
        ensures back { (facts self.new).back ≡ list_with (Self.L.facts link) (facts self.old).back }
        ensures out { (facts self.new).out ≡ (facts self.old).out - 1 }
        ensures asked { (facts self.new).asked ≡ (facts self.old).asked }
        ensures accepts { (facts self.new).accepts ≡ (facts self.old).accepts }
        ensures faults { (facts self.new).faults ≡ (facts self.old).faults };
}
