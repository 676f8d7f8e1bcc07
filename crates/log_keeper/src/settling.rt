//! Writes that are on the disk when they end.

ghost use Rattle.std.specs.Prelude.{◌≡◌, ◌+◌, ◌<◌, ◌≤◌, ◌^◌, length, drop, is_some, OnOk, IsErrOf};
ghost use Rattle.std.specs.Option.{option_map};
ghost use Rattle.willow_outside.specs.Counts.{CountsFault};
ghost use Rattle.willow_outside.specs.Disks.{written, LeavesContents, LeavesOnly, IsWithin};
ghost use Rattle.willow_outside.specs.declared.fault.Fault.TheVariants as faults;
ghost use Rattle.log_keeper.specs.Torn.{IsTornOf, IsTornAtGate};

use willow_outside::{Disk, Fault};

/// Writes bytes of which all are on the disk at Ok. At any moment a crash leaves the old contents with these bytes torn.
pub(crate) fn write_settled<D: Disk>(disk: &mut D, at: u64, bytes: &[u8]) -> Result<(), Fault>
    requires within { IsWithin (D.facts disk.old).contents at }
    requires settled { LeavesContents (D.facts disk.old).contents (D.may_leave disk.old) }
    ensures moments { LeavesOnly D.moment D.left_since disk.old disk.new (IsTornOf (D.facts disk.old).contents at (length bytes.now)) }
    ensures contents { OnOk result ((D.facts disk.new).contents ≡ option_map (written at bytes.now) (D.facts disk.old).contents) }
    ensures told { is_some (D.facts disk.new).contents ≡ is_some (D.facts disk.old).contents }
    ensures settled { OnOk result (LeavesContents (D.facts disk.new).contents (D.may_leave disk.new)) }
    ensures cause { CountsFault (D.facts disk.old).write_faults (D.facts disk.new).write_faults result }
    ensures memory { IsErrOf result faults.NoMemory → ⊥ }
    ensures read_faults { (D.facts disk.new).read_faults ≡ (D.facts disk.old).read_faults }
{
    disk.write_at(at, bytes)?;
    disk.sync()
}

/// Writes a gate and what stands behind it, the gate last: only once all that is behind it is on the disk. At any moment a
/// crash leaves the old contents with the bytes behind the gate torn, or with those bytes there and the gate torn.
pub(crate) fn write_gate_last<D: Disk>(disk: &mut D, at: u64, piece: &[u8]) -> Result<(), Fault>
    requires within { IsWithin (D.facts disk.old).contents (at + 1) }
    requires settled { LeavesContents (D.facts disk.old).contents (D.may_leave disk.old) }
    requires room { at + 1 < 2 ^ 64 }
    requires gate { 1 ≤ length piece.now }
    ensures moments { LeavesOnly D.moment D.left_since disk.old disk.new (IsTornAtGate (D.facts disk.old).contents at (drop 1 piece.now)) }
    ensures contents { OnOk result ((D.facts disk.new).contents ≡ option_map (written at piece.now) (D.facts disk.old).contents) }
    ensures told { is_some (D.facts disk.new).contents ≡ is_some (D.facts disk.old).contents }
    ensures settled { OnOk result (LeavesContents (D.facts disk.new).contents (D.may_leave disk.new)) }
    ensures cause { CountsFault (D.facts disk.old).write_faults (D.facts disk.new).write_faults result }
    ensures memory { IsErrOf result faults.NoMemory → ⊥ }
    ensures read_faults { (D.facts disk.new).read_faults ≡ (D.facts disk.old).read_faults }
{
    let (gate, behind) = piece.split_at(1);
    write_settled(disk, at + 1, behind)?;
    write_settled(disk, at, gate)
}
