//! What keeps bytes at places, and what a crash may leave of them.

ghost use Rattle.std.specs.Prelude.{◌≡◌, ◌≤◌, ℕ, List, Some, None, is_some, IfOk, IfSome, OnOk, IsErrOf, length};
ghost use Rattle.std.specs.Option.{option_map};
ghost use Rattle.willow_outside.specs.Counts.{CountsFault};
ghost use Rattle.willow_outside.specs.Disks.{written, Tears, LeavesNoMore, LeavesContents, IsWithin, ReadsAt, Elapses};
ghost use Rattle.willow_outside.specs.Facts.{DiskFacts};
ghost use Rattle.willow_outside.specs.declared.fault.Fault.TheVariants as faults;

use crate::Fault;

/// What keeps bytes at places, as a file. Until a sync that succeeds, a crash may leave any bytes in each range that was
/// written since the last, and a length between the old one and the new one; all other bytes stay. A disk tells its
/// contents always or never, and one that does not tell them tells no image either.
pub trait Disk: Drop {
    ghost facts: { Self → DiskFacts };

    /// The images that a crash at this moment may leave.
    ghost may_leave: { Self → List ℕ → Type 0 };

    /// This moment, as a number that never falls.
    ghost moment: { Self → ℕ };

    /// The images that a crash at some moment from that one on might have left, during a call or between two.
    ghost left_since: { Self → ℕ → List ℕ → Type 0 };

    /// How many bytes there are. `Failed` comes only where `read_faults` rose.
    fn len(&mut self) -> Result<u64, Fault>
        ensures size { IfOk result (λ n. IfSome (facts self.old).contents (λ bytes. n ≡ length bytes)) }
        ensures contents { (facts self.new).contents ≡ (facts self.old).contents }
        ensures images { LeavesNoMore (may_leave self.old) (may_leave self.new) }
        ensures time { Elapses (moment self.old) (moment self.new) (left_since self.old) (left_since self.new) (may_leave self.new) }
        ensures cause { CountsFault (facts self.old).read_faults (facts self.new).read_faults result }
        ensures write_faults { (facts self.new).write_faults ≡ (facts self.old).write_faults };

    /// Puts the bytes from `at` on at the front of `buf` and answers their number, which is less than `buf.len()` only
    /// at the end. `Failed` comes only where `read_faults` rose.
    fn read_at(&mut self, at: u64, buf: &mut [u8]) -> Result<usize, Fault>
        ensures bound { IfOk result (λ n. n ≤ length buf.new) }
        ensures bytes { IfOk result (λ n. IfSome (facts self.old).contents (λ bytes. ReadsAt bytes at n buf.new)) }
        ensures contents { (facts self.new).contents ≡ (facts self.old).contents }
        ensures images { LeavesNoMore (may_leave self.old) (may_leave self.new) }
        ensures time { Elapses (moment self.old) (moment self.new) (left_since self.old) (left_since self.new) (may_leave self.new) }
        ensures cause { CountsFault (facts self.old).read_faults (facts self.new).read_faults result }
        ensures write_faults { (facts self.new).write_faults ≡ (facts self.old).write_faults };

    /// Writes over what is there, and past the end, from `at` on, which is at most the length. `Failed` comes only where
    /// `write_faults` rose, and `NoMemory` never. After `Failed` the contents are any image that a crash may leave.
    fn write_at(&mut self, at: u64, bytes: &[u8]) -> Result<(), Fault>
        requires { IsWithin (facts self.old).contents at }
        ensures contents { OnOk result ((facts self.new).contents ≡ option_map (written at bytes.now) (facts self.old).contents) }
        ensures told { is_some (facts self.new).contents ≡ is_some (facts self.old).contents }
        ensures images { Tears at (length bytes.now) (may_leave self.old) (may_leave self.new) }
        ensures time { Elapses (moment self.old) (moment self.new) (left_since self.old) (left_since self.new) (may_leave self.new) }
        ensures cause { CountsFault (facts self.old).write_faults (facts self.new).write_faults result }
        ensures memory { IsErrOf result faults.NoMemory → ⊥ }
        ensures read_faults { (facts self.new).read_faults ≡ (facts self.old).read_faults };

    /// After `Ok` a crash leaves the contents alone. `Failed` comes only where `write_faults` rose, and `NoMemory` never.
    /// After `Failed` the contents are any image that a crash may leave.
    fn sync(&mut self) -> Result<(), Fault>
        ensures synced { OnOk result (LeavesContents (facts self.old).contents (may_leave self.new)) }
        ensures contents { OnOk result ((facts self.new).contents ≡ (facts self.old).contents) }
        ensures told { is_some (facts self.new).contents ≡ is_some (facts self.old).contents }
        ensures images { LeavesNoMore (may_leave self.old) (may_leave self.new) }
        ensures time { Elapses (moment self.old) (moment self.new) (left_since self.old) (left_since self.new) (may_leave self.new) }
        ensures cause { CountsFault (facts self.old).write_faults (facts self.new).write_faults result }
        ensures memory { IsErrOf result faults.NoMemory → ⊥ }
        ensures read_faults { (facts self.new).read_faults ≡ (facts self.old).read_faults };

    /// What is there is one of the images.
    ghost contents_left: { (disk : Self) (c : List ℕ) → (facts disk).contents ≡ Some c → may_leave disk c };

    /// Where the contents are not told, no image is.
    ghost untold: { (disk : Self) (c : List ℕ) → (facts disk).contents ≡ None → may_leave disk c → ⊥ };

    /// This moment is one of those since an earlier one.
    ghost counts_now: { (disk : Self) (t : ℕ) (c : List ℕ) → t ≤ moment disk → may_leave disk c → left_since disk t c };

    /// Since this moment there is no other.
    ghost only_now: { (disk : Self) (c : List ℕ) → left_since disk (moment disk) c → may_leave disk c };
}
