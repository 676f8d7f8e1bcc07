//! The keeper of a log.

ghost use Rattle.std.specs.Prelude.{◌≡◌, ◌+◌, ◌-◌, ◌<◌, ◌≤◌, ◌^◌, [], true, false, length, map, is_some, Ok, IfOk, IfErr, IfSome, OnOk, IsErrOf};
ghost use Rattle.std.specs.List.{AllByRecursion};
ghost use Rattle.std.specs.Option.{option_map};
ghost use Rattle.spelling.specs.declared.ending.End.TheVariants as ends;
ghost use Rattle.willow_outside.specs.Disks.{written, LeavesContents, LeavesOnly};
ghost use Rattle.row_stream.specs.Streams.{IsStreamRow};
ghost use Rattle.log_keeper.specs.declared.keeper.Opened.TheVariants as opened;
ghost use Rattle.log_keeper.specs.declared.refusal.KeepRefusal.TheVariants as refusals;
ghost use Rattle.log_keeper.specs.BadLogs.{IsBadFile};
ghost use Rattle.log_keeper.specs.Causes.{EndsByCause, HasCause, CountsNoFault, IfUnwritten};
ghost use Rattle.log_keeper.specs.Crashes.{HoldsNoRow, KeepsMore, KeepsRows, LeavesBeforeOrAfter};
ghost use Rattle.log_keeper.specs.KeeperState.{disk_of};
ghost use Rattle.log_keeper.specs.LogFile.{HoldsNoLog, last_record, new_log, record_body};
ghost use Rattle.log_keeper.specs.Opening.{WasOnlyRead, IsReadWell, IsUnchanged};
ghost use Rattle.log_keeper.specs.Runs.{KeepsSlice};
ghost use Rattle.log_keeper.specs.Slices.{logged_rows};
ghost use Rattle.log_keeper.specs.Sound.{IsSoundKeeper};

use crate::beginning::begin_log;
use crate::opening::read_disk;
use crate::refusal::KeepRefusal;
use crate::settling::write_gate_last;
use crate::spelled::record_of;
use spelling::End;
use std::alloc::Global;
use std::marker::{Model, PhantomData};
use willow_entry::{LogRow, Row, RowForm};
use willow_outside::Disk;
use willow_path::NamespaceKey;

/// Keeps slices of rows in a file. A contract sees its disk, the place of the closed gate, the number of rows that the
/// file holds, and whether a write failed.
#[derive(Drop)]
pub struct LogKeeper<F: RowForm, D: Disk> {
    alloc: Global,
    disk: D,
    end: u64,
    count: u64,
    broken: bool,
    form: PhantomData<F>,
}

impl<F: RowForm, D: Disk> Model for LogKeeper<F, D> {
    ghost use Rattle.log_keeper.specs.KeeperState.{KeeperState};
    ghost use Rattle.log_keeper.specs.Sound.{IsSoundKeeper};

    ghost Value = { KeeperState D };

    ghost view = { λ s. record { disk = s.disk; end = s.end; count = s.count; broken = s.broken } };

    ghost invariant = { λ s. IsSoundKeeper F.IsRow (D.facts s.disk).contents (D.may_leave s.disk) s.end s.count s.broken };
}

/// What a file holds.
#[derive(Drop)]
pub enum Opened<F: RowForm, D: Disk> {
    /// No log. The disk comes back.
    Absent(D),
    /// A log.
    Log {
        /// Its keeper.
        keeper: LogKeeper<F, D>,
        /// The rows that it holds.
        rows: Vec<F::R>,
    },
}

impl<F: RowForm, D: Disk> LogKeeper<F, D> {
    /// Begins a log in a file that holds none and of which no write is pending, as `open` leaves it. At any moment a crash
    /// leaves a file that holds no log, or a log without rows. Want of memory and a failed read come before any write; after
    /// a failed write the file is to be opened again.
    pub fn create(
        alloc: Global,
        disk: D,
        namespace: &NamespaceKey,
    ) -> Result<LogKeeper<F, D>, (D, End<KeepRefusal>)>
        requires settled { LeavesContents (D.facts disk).contents (D.may_leave disk) }
        requires no_log { IfSome (D.facts disk).contents HoldsNoLog }
        ensures moments { LeavesOnly D.moment D.left_since disk (disk_of result) (HoldsNoRow F.IsRow namespace.now) }
        ensures keeps { IfOk result (λ k. KeepsRows F.IsRow D.facts D.may_leave k namespace.now []) }
        ensures contents { IfOk result (λ k. (D.facts k.disk).contents ≡ option_map (written 0 (new_log namespace.now)) (D.facts disk).contents) }
        ensures end { IfOk result (λ k. k.end ≡ 38) }
        ensures unbroken { IfOk result (λ k. k.broken ≡ false) }
        ensures faults { IfOk result (λ k. CountsNoFault (D.facts disk) (D.facts k.disk)) }
        ensures cause { IfErr result (λ back. HasCause (λ at. ⊥) (D.facts disk) (D.facts back.0) back.1) }
        ensures unwritten { IfErr result (λ back. IfUnwritten back.1 (IsUnchanged D.facts D.may_leave disk back.0)) }
        ensures told { is_some (D.facts (disk_of result)).contents ≡ is_some (D.facts disk).contents }
    {
        let mut disk = disk;
        match begin_log(alloc, &mut disk, namespace) {
            Ok(()) => Ok(LogKeeper {
                alloc,
                disk,
                end: 38,
                count: 0,
                broken: false,
                form: PhantomData,
            }),
            Err(why) => Err((disk, why)),
        }
    }

    /// Opens a file: brings to the disk what is pending, and then only reads. Answers the keeper of the log with the rows
    /// that it holds, or the disk where its file holds no log. At any moment a crash leaves what it might have left before.
    pub fn open(
        alloc: Global,
        disk: D,
        namespace: &NamespaceKey,
    ) -> Result<Opened<F, D>, (D, End<KeepRefusal>)>
        ensures absent { (back : _) → result ≡ Ok (opened.Absent back) → IsReadWell D.facts D.may_leave D.moment D.left_since disk back × IfSome (D.facts back).contents HoldsNoLog }
        ensures read { (keeper : _) (rows : _) → result ≡ Ok (opened.Log keeper rows) → IsReadWell D.facts D.may_leave D.moment D.left_since disk keeper.disk }
        ensures keeps { (keeper : _) (rows : _) → result ≡ Ok (opened.Log keeper rows) → KeepsRows F.IsRow D.facts D.may_leave keeper namespace.now (map F.R.value rows.items) }
        ensures place { (keeper : _) (rows : _) → result ≡ Ok (opened.Log keeper rows) → (keeper.end < 2 ^ 62) × (keeper.broken ≡ false) }
        ensures only_read { IfErr result (λ back. WasOnlyRead D.facts D.may_leave D.moment D.left_since disk back.0) }
        ensures unwritten { IfErr result (λ back. IfUnwritten back.1 ((D.facts back.0).contents ≡ (D.facts disk).contents)) }
        ensures cause { IfErr result (λ back. HasCause (λ at. IfSome (D.facts disk).contents (IsBadFile F.IsRow namespace.now at)) (D.facts disk) (D.facts back.0) back.1) }
    {
        let mut disk = disk;
        match read_disk::<F, D>(alloc, &mut disk, namespace) {
            Ok(None) => Ok(Opened::Absent(disk)),
            Ok(Some((rows, end))) => {
                let count = rows.len() as u64;
                let keeper = LogKeeper {
                    alloc,
                    disk,
                    end,
                    count,
                    broken: false,
                    form: PhantomData,
                };
                Ok(Opened::Log { keeper, rows })
            }
            Err(why) => Err((disk, why)),
        }
    }

    /// The place of the closed gate.
    pub fn end(&self) -> u64
        ensures { result ≡ self.now.end }
    {
        self.end
    }

    /// Whether a `keep` answered that a write failed. The file is then to be opened again.
    pub fn is_broken(&self) -> bool
        ensures { result ≡ self.now.broken }
    {
        self.broken
    }

    /// Does nothing: it is called for its clause, that a keeper of which no write failed keeps some rows in its file, all of them
    /// on the disk.
    pub fn known(&self)
        ensures { IsSoundKeeper F.IsRow (D.facts self.now.disk).contents (D.may_leave self.now.disk) self.now.end self.now.count self.now.broken }
    {
        let _end = self.end;
    }

    /// The disk.
    pub fn into_disk(self) -> D
        ensures { result ≡ self.disk }
    {
        self.disk
    }

    /// Keeps a slice of 1 to 256 rows, and answers the number of rows that the file now holds. At any moment a crash leaves
    /// a file that holds the rows from before, or those and the slice, and after Ok only the latter. Two syncs, and each
    /// byte is written once. Want of memory comes before any write; else only `WriteFailed` is answered, and then the keeper
    /// is broken.
    pub fn keep<R: Row>(&mut self, slice: &[LogRow<R>]) -> Result<u64, End<KeepRefusal>>
        requires unbroken { self.old.broken ≡ false }
        requires some { 1 ≤ length slice.now }
        requires few { length slice.now ≤ 256 }
        requires fit { AllByRecursion (IsStreamRow F.IsRow) (logged_rows R.value slice.now) }
        requires room { self.old.end + 1 + length (record_body (logged_rows R.value slice.now)) < 2 ^ 63 - 1 }
        ensures moments { LeavesBeforeOrAfter F.IsRow D.facts D.may_leave D.moment D.left_since self.old self.new (logged_rows R.value slice.now) }
        ensures kept { OnOk result (KeepsMore F.IsRow D.facts D.may_leave self.old self.new (logged_rows R.value slice.now)) }
        ensures step { KeepsSlice F.IsRow D.facts D.may_leave D.moment D.left_since self.old self.new (logged_rows R.value slice.now) result }
        ensures contents { OnOk result ((D.facts self.new.disk).contents ≡ option_map (written self.old.end (last_record (logged_rows R.value slice.now))) (D.facts self.old.disk).contents) }
        ensures number { IfOk result (λ n. (n ≡ self.new.count) × (n ≡ self.old.count + length slice.now)) }
        ensures end { OnOk result (self.new.end ≡ self.old.end + 1 + length (record_body (logged_rows R.value slice.now))) }
        ensures unbroken { OnOk result (self.new.broken ≡ false) }
        ensures broken { (why : _) → IsErrOf result (ends.Refused why) → (why ≡ refusals.WriteFailed) × (self.new.broken ≡ true) }
        ensures memory { IsErrOf result ends.NoMemory → self.new ≡ self.old }
        ensures told { is_some (D.facts self.new.disk).contents ≡ is_some (D.facts self.old.disk).contents }
        ensures cause { EndsByCause (λ at. ⊥) (D.facts self.old.disk) (D.facts self.new.disk) result }
    {
        let piece = record_of(self.alloc, slice)?;
        self.write_record(slice, &piece)
    }

    // Writes the piece, the record of the slice, and counts its rows. Borrows the piece, so that no way out drops it.
    fn write_record<R: Row>(
        &mut self,
        slice: &[LogRow<R>],
        piece: &[u8],
    ) -> Result<u64, End<KeepRefusal>>
        requires unbroken { self.old.broken ≡ false }
        requires few { length slice.now ≤ 256 }
        requires fit { AllByRecursion (IsStreamRow F.IsRow) (logged_rows R.value slice.now) }
        requires room { self.old.end + 1 + length (record_body (logged_rows R.value slice.now)) < 2 ^ 63 - 1 }
        requires piece { piece.now ≡ last_record (logged_rows R.value slice.now) }
        ensures step { KeepsSlice F.IsRow D.facts D.may_leave D.moment D.left_since self.old self.new (logged_rows R.value slice.now) result }
        ensures contents { OnOk result ((D.facts self.new.disk).contents ≡ option_map (written self.old.end (last_record (logged_rows R.value slice.now))) (D.facts self.old.disk).contents) }
        ensures number { IfOk result (λ n. (n ≡ self.new.count) × (n ≡ self.old.count + length slice.now)) }
        ensures end { OnOk result (self.new.end ≡ self.old.end + 1 + length (record_body (logged_rows R.value slice.now))) }
        ensures unbroken { OnOk result (self.new.broken ≡ false) }
        ensures broken { (why : _) → IsErrOf result (ends.Refused why) → (why ≡ refusals.WriteFailed) × (self.new.broken ≡ true) }
        ensures memory { IsErrOf result ends.NoMemory → ⊥ }
        ensures told { is_some (D.facts self.new.disk).contents ≡ is_some (D.facts self.old.disk).contents }
        ensures cause { EndsByCause (λ at. ⊥) (D.facts self.old.disk) (D.facts self.new.disk) result }
    {
        match write_gate_last(&mut self.disk, self.end, piece) {
            Ok(()) => {
                self.end += (piece.len() - 1) as u64;
                self.count += slice.len() as u64;
                Ok(self.count)
            }
            Err(_) => {
                self.broken = true;
                Err(End::Refused(KeepRefusal::WriteFailed))
            }
        }
    }
}
