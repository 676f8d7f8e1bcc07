//! Reading the file of a disk.

ghost use Rattle.std.specs.Prelude.{◌≡◌, ◌<◌, ◌≤◌, ◌^◌, length, is_some, IfOk, IfErr, IfSome, OnOk};
ghost use Rattle.willow_outside.specs.Disks.{LeavesContents, LeavesNoMore, LeavesOnly};
ghost use Rattle.log_keeper.specs.BadLogs.{IsBadFile};
ghost use Rattle.log_keeper.specs.Causes.{EndsByCause, IfUnwritten};
ghost use Rattle.log_keeper.specs.Readings.{ReadsFile, IsTooLong, IsNoFault};

use crate::beginning::size_of;
use crate::reading::read_log;
use crate::refusal::KeepRefusal;
use spelling::End;
use std::alloc::{AllocError, Global};
use willow_entry::RowForm;
use willow_outside::{Disk, Fault};
use willow_path::NamespaceKey;

// A file of so many bytes or more is not read.
const TOO_LONG: u64 = 1 << 62;

// Brings to the disk what was written.
fn settle<D: Disk>(disk: &mut D) -> Result<(), End<KeepRefusal>>
    ensures moments { LeavesOnly D.moment D.left_since disk.old disk.new (D.may_leave disk.old) }
    ensures images { LeavesNoMore (D.may_leave disk.old) (D.may_leave disk.new) }
    ensures contents { OnOk result ((D.facts disk.new).contents ≡ (D.facts disk.old).contents) }
    ensures told { is_some (D.facts disk.new).contents ≡ is_some (D.facts disk.old).contents }
    ensures settled { OnOk result (LeavesContents (D.facts disk.new).contents (D.may_leave disk.new)) }
    ensures cause { EndsByCause (λ at. ⊥) (D.facts disk.old) (D.facts disk.new) result }
    ensures unwritten { IfErr result (λ why. IfUnwritten why ⊥) }
{
    match disk.sync() {
        Ok(()) => Ok(()),
        Err(_) => Err(End::Refused(KeepRefusal::WriteFailed)),
    }
}

// Room for so many bytes.
fn room(alloc: Global, size: usize) -> Result<Vec<u8>, AllocError>
    ensures { IfOk result (λ v. length v.items ≡ size) }
{
    vec![in alloc; 0u8; size]
}

// All bytes of a file of this size, by one read.
fn read_whole<D: Disk>(alloc: Global, disk: &mut D, size: u64) -> Result<Vec<u8>, End<KeepRefusal>>
    requires size { IfSome (D.facts disk.old).contents (λ bytes. size ≡ length bytes) }
    requires settled { LeavesContents (D.facts disk.old).contents (D.may_leave disk.old) }
    ensures bytes { IfOk result (λ v. IfSome (D.facts disk.old).contents (λ bytes. v.items ≡ bytes)) }
    ensures within { IfOk result (λ v. length v.items ≤ size) }
    ensures moments { LeavesOnly D.moment D.left_since disk.old disk.new (D.may_leave disk.old) }
    ensures images { LeavesNoMore (D.may_leave disk.old) (D.may_leave disk.new) }
    ensures contents { (D.facts disk.new).contents ≡ (D.facts disk.old).contents }
    ensures settled { LeavesContents (D.facts disk.new).contents (D.may_leave disk.new) }
    ensures cause { EndsByCause (λ at. ⊥) (D.facts disk.old) (D.facts disk.new) result }
{
    let mut bytes = room(alloc, size as usize)?;
    match disk.read_at(0, &mut bytes) {
        Ok(n) => {
            bytes.truncate(n);
            Ok(bytes)
        }
        Err(Fault::Failed) => Err(End::Refused(KeepRefusal::ReadFailed)),
        Err(Fault::NoMemory) => Err(End::NoMemory),
    }
}

// Brings to the disk what was written, and answers the length of a file that is not too long.
fn settled_size<D: Disk>(disk: &mut D) -> Result<u64, End<KeepRefusal>>
    ensures size { IfOk result (λ n. IfSome (D.facts disk.new).contents (λ bytes. n ≡ length bytes)) }
    ensures short { IfOk result (λ n. n < 2 ^ 62) }
    ensures moments { LeavesOnly D.moment D.left_since disk.old disk.new (D.may_leave disk.old) }
    ensures images { LeavesNoMore (D.may_leave disk.old) (D.may_leave disk.new) }
    ensures contents { OnOk result ((D.facts disk.new).contents ≡ (D.facts disk.old).contents) }
    ensures told { is_some (D.facts disk.new).contents ≡ is_some (D.facts disk.old).contents }
    ensures unwritten { IfErr result (λ why. IfUnwritten why ((D.facts disk.new).contents ≡ (D.facts disk.old).contents)) }
    ensures settled { OnOk result (LeavesContents (D.facts disk.new).contents (D.may_leave disk.new)) }
    ensures cause { EndsByCause (λ at. IfSome (D.facts disk.old).contents (IsTooLong at)) (D.facts disk.old) (D.facts disk.new) result }
{
    settle(disk)?;
    let size = size_of(disk)?;
    if TOO_LONG <= size {
        return Err(End::Refused(KeepRefusal::BadLog { at: TOO_LONG }));
    }
    Ok(size)
}

// What the bytes of a file hold, as `read_disk` answers it. It borrows them, so that no way out drops them.
fn read_bytes<F: RowForm>(
    alloc: Global,
    bytes: &[u8],
    namespace: &NamespaceKey,
) -> Result<Option<(Vec<F::R>, u64)>, End<KeepRefusal>>
    requires { length bytes.now < 2 ^ 62 }
    ensures reads { ReadsFile F.IsRow F.R.value namespace.now result bytes.now }
    ensures no_fault { IfErr result IsNoFault }
    ensures few { IfOk result (λ found. IfSome found (λ log. (length log.0.items ≤ log.1) × (log.1 < 2 ^ 62))) }
{
    match read_log::<F>(alloc, bytes, namespace) {
        Ok(found) => Ok(found),
        Err(End::Refused(at)) => Err(End::Refused(KeepRefusal::BadLog { at })),
        Err(End::NoMemory) => Err(End::NoMemory),
    }
}

/// The rows that the file of a disk holds, and the place of the closed gate; None where it holds no log. Syncs once, and then
/// only reads.
pub(crate) fn read_disk<F: RowForm, D: Disk>(
    alloc: Global,
    disk: &mut D,
    namespace: &NamespaceKey,
) -> Result<Option<(Vec<F::R>, u64)>, End<KeepRefusal>>
    ensures reads { IfSome (D.facts disk.old).contents (ReadsFile F.IsRow F.R.value namespace.now result) }
    ensures moments { LeavesOnly D.moment D.left_since disk.old disk.new (D.may_leave disk.old) }
    ensures images { LeavesNoMore (D.may_leave disk.old) (D.may_leave disk.new) }
    ensures contents { OnOk result ((D.facts disk.new).contents ≡ (D.facts disk.old).contents) }
    ensures told { is_some (D.facts disk.new).contents ≡ is_some (D.facts disk.old).contents }
    ensures unwritten { IfErr result (λ why. IfUnwritten why ((D.facts disk.new).contents ≡ (D.facts disk.old).contents)) }
    ensures settled { OnOk result (LeavesContents (D.facts disk.new).contents (D.may_leave disk.new)) }
    ensures few { IfOk result (λ found. IfSome found (λ log. (length log.0.items ≤ log.1) × (log.1 < 2 ^ 62))) }
    ensures cause { EndsByCause (λ at. IfSome (D.facts disk.old).contents (IsBadFile F.IsRow namespace.now at)) (D.facts disk.old) (D.facts disk.new) result }
{
    let size = settled_size(disk)?;
    let bytes = read_whole(alloc, disk, size)?;
    read_bytes::<F>(alloc, &bytes, namespace)
}
