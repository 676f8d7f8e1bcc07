//! Where disks come from.

ghost use Rattle.std.specs.Prelude.{◌≡◌, ◌-◌, ◌≤◌, IfOk};
ghost use Rattle.willow_outside.specs.Bays.{OpensDisk};
ghost use Rattle.willow_outside.specs.Counts.{CountsFault};
ghost use Rattle.willow_outside.specs.Disks.{LeavesContents};
ghost use Rattle.willow_outside.specs.Facts.{BayFacts};
ghost use Rattle.willow_outside.specs.Links.{AsksPlace as AsksName, HandsOutLink as HandsOutDisk, list_with};

use crate::{Disk, Fault};

/// Where disks come from: the files of a machine, or disks in memory.
pub trait Bay {
    type D: Disk;

    ghost facts: { Self → BayFacts };

    /// The disk of `name`, where a new name has an empty one. `Failed` comes only where `faults` rose.
    fn open(&mut self, name: &str) -> Result<Self::D, Fault>
        ensures disk { IfOk result (λ disk. OpensDisk (facts self.old).names name.now (Self.D.facts disk)) }
        ensures images { IfOk result (λ disk. LeavesContents (Self.D.facts disk).contents (Self.D.may_leave disk)) }
        ensures out { HandsOutDisk (facts self.old).out (facts self.new).out result }
        ensures asked { AsksName (facts self.old).asked (facts self.new).asked name.now result }
        ensures cause { CountsFault (facts self.old).faults (facts self.new).faults result }
        ensures names { (facts self.new).names ≡ (facts self.old).names }
        ensures back { (facts self.new).back ≡ (facts self.old).back };

    /// Takes back a disk, for which there is room since it was handed out.
    fn give_back(&mut self, disk: Self::D)
        requires { 1 ≤ (facts self.old).out }
        ensures back { (facts self.new).back ≡ list_with (Self.D.facts disk) (facts self.old).back }
        ensures out { (facts self.new).out ≡ (facts self.old).out - 1 }
        ensures names { (facts self.new).names ≡ (facts self.old).names }
        ensures asked { (facts self.new).asked ≡ (facts self.old).asked }
        ensures faults { (facts self.new).faults ≡ (facts self.old).faults };
}
