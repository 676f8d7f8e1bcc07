//! Beginning a log.

ghost use Rattle.std.specs.Prelude.{◌≡◌, ◌<◌, drop, length, is_some, OnOk, IfOk, IfErr, IfSome};
ghost use Rattle.std.specs.Option.{option_map};
ghost use Rattle.willow_path.specs.Key.{IsKey};
ghost use Rattle.willow_outside.specs.Disks.{written, LeavesContents, LeavesNoMore, LeavesOnly};
ghost use Rattle.log_keeper.specs.Causes.{EndsByCause, IfUnwritten};
ghost use Rattle.log_keeper.specs.LogFile.{HoldsNoLog, IsShut, new_log};
ghost use Rattle.log_keeper.specs.Opening.{IsUnchanged};
ghost use Rattle.log_keeper.specs.Torn.{HoldsNoneOr};

use crate::header::{LEAST, new_log};
use crate::refusal::KeepRefusal;
use crate::settling::{write_gate_last, write_settled};
use spelling::End;
use std::alloc::Global;
use willow_outside::{Disk, Fault};
use willow_path::NamespaceKey;

/// The length of the file.
pub(crate) fn size_of<D: Disk>(disk: &mut D) -> Result<u64, End<KeepRefusal>>
    requires settled { LeavesContents (D.facts disk.old).contents (D.may_leave disk.old) }
    ensures size { IfOk result (λ n. IfSome (D.facts disk.old).contents (λ bytes. n ≡ length bytes)) }
    ensures moments { LeavesOnly D.moment D.left_since disk.old disk.new (D.may_leave disk.old) }
    ensures images { LeavesNoMore (D.may_leave disk.old) (D.may_leave disk.new) }
    ensures contents { (D.facts disk.new).contents ≡ (D.facts disk.old).contents }
    ensures settled { LeavesContents (D.facts disk.new).contents (D.may_leave disk.new) }
    ensures cause { EndsByCause (λ at. ⊥) (D.facts disk.old) (D.facts disk.new) result }
{
    match disk.len() {
        Ok(size) => Ok(size),
        Err(Fault::Failed) => Err(End::Refused(KeepRefusal::ReadFailed)),
        Err(Fault::NoMemory) => Err(End::NoMemory),
    }
}

// Writes a closed gate first, in a file that is too short for a log.
fn shut_short<D: Disk>(disk: &mut D) -> Result<(), End<KeepRefusal>>
    requires settled { LeavesContents (D.facts disk.old).contents (D.may_leave disk.old) }
    requires short { IfSome (D.facts disk.old).contents (λ bytes. length bytes < 39) }
    ensures moments { LeavesOnly D.moment D.left_since disk.old disk.new HoldsNoLog }
    ensures settled { OnOk result (LeavesContents (D.facts disk.new).contents (D.may_leave disk.new)) }
    ensures shut { OnOk result (IfSome (D.facts disk.new).contents IsShut) }
    ensures behind { OnOk result (option_map (drop 39) (D.facts disk.new).contents ≡ option_map (drop 39) (D.facts disk.old).contents) }
    ensures cause { EndsByCause (λ at. ⊥) (D.facts disk.old) (D.facts disk.new) result }
    ensures told { is_some (D.facts disk.new).contents ≡ is_some (D.facts disk.old).contents }
    ensures unwritten { IfErr result (λ why. IfUnwritten why ⊥) }
{
    match write_settled(disk, 0, &[0]) {
        Ok(()) => Ok(()),
        Err(_) => Err(End::Refused(KeepRefusal::WriteFailed)),
    }
}

/// Sees to it that a closed gate stands first, in a file that holds no log. What stands behind a header stays.
pub(crate) fn shut_gate<D: Disk>(disk: &mut D) -> Result<(), End<KeepRefusal>>
    requires settled { LeavesContents (D.facts disk.old).contents (D.may_leave disk.old) }
    requires no_log { IfSome (D.facts disk.old).contents HoldsNoLog }
    ensures moments { LeavesOnly D.moment D.left_since disk.old disk.new HoldsNoLog }
    ensures settled { OnOk result (LeavesContents (D.facts disk.new).contents (D.may_leave disk.new)) }
    ensures shut { OnOk result (IfSome (D.facts disk.new).contents IsShut) }
    ensures behind { OnOk result (option_map (drop 39) (D.facts disk.new).contents ≡ option_map (drop 39) (D.facts disk.old).contents) }
    ensures cause { EndsByCause (λ at. ⊥) (D.facts disk.old) (D.facts disk.new) result }
    ensures told { is_some (D.facts disk.new).contents ≡ is_some (D.facts disk.old).contents }
    ensures unwritten { IfErr result (λ why. IfUnwritten why (IsUnchanged D.facts D.may_leave disk.old disk.new)) }
{
    let size = size_of(disk)?;
    if size < LEAST as u64 {
        return shut_short(disk);
    }
    Ok(())
}

/// Puts a log without rows in a file that holds none: all that is behind its first gate, and then the gate.
pub(crate) fn begin_log<D: Disk>(
    alloc: Global,
    disk: &mut D,
    namespace: &NamespaceKey,
) -> Result<(), End<KeepRefusal>>
    requires settled { LeavesContents (D.facts disk.old).contents (D.may_leave disk.old) }
    requires no_log { IfSome (D.facts disk.old).contents HoldsNoLog }
    ensures moments { LeavesOnly D.moment D.left_since disk.old disk.new (HoldsNoneOr (new_log namespace.now)) }
    ensures contents { OnOk result ((D.facts disk.new).contents ≡ option_map (written 0 (new_log namespace.now)) (D.facts disk.old).contents) }
    ensures settled { OnOk result (LeavesContents (D.facts disk.new).contents (D.may_leave disk.new)) }
    ensures cause { EndsByCause (λ at. ⊥) (D.facts disk.old) (D.facts disk.new) result }
    ensures told { is_some (D.facts disk.new).contents ≡ is_some (D.facts disk.old).contents }
    ensures unwritten { IfErr result (λ why. IfUnwritten why (IsUnchanged D.facts D.may_leave disk.old disk.new)) }
    ensures key { IsKey namespace.now }
{
    let log = new_log(alloc, namespace)?;
    shut_gate(disk)?;
    match write_gate_last(disk, 0, &log) {
        Ok(()) => Ok(()),
        Err(_) => Err(End::Refused(KeepRefusal::WriteFailed)),
    }
}
