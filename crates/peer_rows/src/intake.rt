//! What was taken in of an input or an image: the log of the rows that were judged, and the rows that wait.

ghost use Rattle.std.specs.Prelude.{◌≡◌, ℕ, ◌+◌, ◌^◌, ◌<◌, ◌≤◌, ◌∷◌, ◌++◌, ◌↔◌, [], List, length, IsTrue, None, OnOk};
ghost use Rattle.cap_codec.specs.Rows.{RawValue};
ghost use Rattle.peer_rows.specs.Reading.{IsLonger};
ghost use Rattle.peer_rows.specs.Stored.{AdmitsRow, HasTakenIn, JudgesAll, MayWait, TakesRows};

use crate::images::log_stop;
use crate::log::Log;
use crate::offering::offer_all;
use auth_entry::Checker;
use cap_codec::RawRow;
use lms_core::PeerScheme;
use ns_state::LOG_LIMIT;
use peer_stage::Stop;
use spelling::NoMemory;
use std::alloc::Global;
use std::mem;
use std::thread::Threads;
use willow_path::NamespaceKey;

/// So many rows are worth the threads that judge them: to start those may take milliseconds, and a read brings only some
/// forty rows that are signed by LMS keys.
pub(crate) const TOGETHER: usize = 1024;

/// Where a read brings fewer rows than this, each of them is long to judge. Of rows of open keys, which take no threads, a
/// read brings more, and none waits.
const LIGHT: usize = 64;

/// Rows of a stream, in order: those that were judged, of which this is the log, and behind them those that wait.
#[derive(Drop)]
pub(crate) struct Intake {
    pub(crate) log: Log,
    waiting: Vec<RawRow>,
}

impl Intake {
    pub(crate) fn new(alloc: Global, namespace: NamespaceKey) -> Intake
        ensures kept { result.log.kept ≡ record { namespace = namespace; log = [] } }
        ensures counts { result.log.counts ≡ record { rows = 0; stored = 0; kept = 0; refused = 0; first = None } }
        ensures none_wait { result.waiting.items ≡ [] }
    {
        Intake::behind(alloc, Log::new(alloc, namespace))
    }

    /// Nothing waits behind the rows of this log.
    pub(crate) fn behind(alloc: Global, log: Log) -> Intake
        ensures log { result.log ≡ log }
        ensures none_wait { result.waiting.items ≡ [] }
    {
        Intake {
            log,
            waiting: Vec::new(alloc),
        }
    }

    /// Takes in the rows that a read brought. They wait for more where each is long to judge, unless those that wait are many
    /// or one could meet a full log: so a full log is told at the read that brings the row that is too many.
    pub(crate) fn take_in<C: Checker<PeerScheme>, R: Threads + Sync>(
        &mut self,
        rt: &R,
        alloc: Global,
        checker: &mut C,
        rows: Vec<RawRow>,
    ) -> Result<(), Stop>
        requires namespace { C.judged_in checker.old ≡ self.old.log.kept.namespace }
        requires few { (namespace : List ℕ) × (before : List RawValue) × HasTakenIn namespace before self.old × (length before + length rows.items < 2 ^ 64) }
        ensures namespace { C.judged_in checker.new ≡ C.judged_in checker.old }
        ensures takes { (namespace : List ℕ) (before : List RawValue) → HasTakenIn namespace before self.old → TakesRows namespace (before ++ rows.items) self.old.log self.new result }
        ensures longer { OnOk result (IsLonger self.old.log self.new.log) }
    {
        let brought = rows.len();
        self.wait(rows)?;
        if brought < LIGHT && self.may_wait() {
            return Ok(());
        }
        self.judge(rt, alloc, checker)
    }

    // Lets rows wait, behind those that do.
    fn wait(&mut self, rows: Vec<RawRow>) -> Result<(), NoMemory>
        ensures log { self.new.log ≡ self.old.log }
        ensures waits { OnOk result (self.new.waiting.items ≡ self.old.waiting.items ++ rows.items) }
    {
        put_behind(&mut self.waiting, rows)
    }

    // Whether the rows that wait may wait for more: they are few, and none of them can meet a full log.
    fn may_wait(&self) -> bool
        requires { self.now.log.counts.stored ≤ LOG_LIMIT }
        ensures { IsTrue result ↔ MayWait self.now }
    {
        let room = LOG_LIMIT - self.log.counts.stored as usize;
        self.waiting.len() < TOGETHER && self.waiting.len() <= room
    }

    /// Takes a row in behind the others. As soon as those that wait are enough, they are judged together.
    pub(crate) fn admit<C: Checker<PeerScheme>, R: Threads + Sync>(
        &mut self,
        rt: &R,
        alloc: Global,
        checker: &mut C,
        row: RawRow,
    ) -> Result<(), Stop>
        requires namespace { C.judged_in checker.old ≡ self.old.log.kept.namespace }
        requires few { (namespace : List ℕ) × (rows : List RawValue) × HasTakenIn namespace rows self.old × (length rows + 1 < 2 ^ 64) }
        ensures namespace { C.judged_in checker.new ≡ C.judged_in checker.old }
        ensures admits { (namespace : List ℕ) (rows : List RawValue) → HasTakenIn namespace rows self.old → AdmitsRow namespace (rows ++ row ∷ []) self.old.log self.new result }
    {
        self.hold(row)?;
        if self.waiting.len() < TOGETHER {
            return Ok(());
        }
        self.judge(rt, alloc, checker)
    }

    // Lets a row wait, behind those that do.
    fn hold(&mut self, row: RawRow) -> Result<(), NoMemory>
        ensures log { self.new.log ≡ self.old.log }
        ensures waits { OnOk result (self.new.waiting.items ≡ self.old.waiting.items ++ row ∷ []) }
    {
        self.waiting.push(row)?;
        Ok(())
    }

    /// Judges the rows that wait together, and offers them to the log in order, up to the first that meets a full one.
    pub(crate) fn judge<C: Checker<PeerScheme>, R: Threads + Sync>(
        &mut self,
        rt: &R,
        alloc: Global,
        checker: &mut C,
    ) -> Result<(), Stop>
        requires namespace { C.judged_in checker.old ≡ self.old.log.kept.namespace }
        requires few { (namespace : List ℕ) × (rows : List RawValue) × HasTakenIn namespace rows self.old × (length rows < 2 ^ 64) }
        ensures namespace { C.judged_in checker.new ≡ C.judged_in checker.old }
        ensures judges { (namespace : List ℕ) (rows : List RawValue) → HasTakenIn namespace rows self.old → JudgesAll namespace rows self.old.log self.new result }
    {
        let rows = mem::replace(&mut self.waiting, Vec::new(alloc));
        match offer_all(rt, alloc, checker, &mut self.log, rows) {
            Ok(()) => Ok(()),
            Err(end) => Err(log_stop(end)),
        }
    }
}

/// Puts rows behind others. Where there are none the list is taken as it is.
pub(crate) fn put_behind(rows: &mut Vec<RawRow>, mut more: Vec<RawRow>) -> Result<(), NoMemory>
    ensures { OnOk result (rows.new.items ≡ rows.old.items ++ more.items) }
{
    if rows.is_empty() {
        *rows = more;
        return Ok(());
    }
    rows.append(&mut more)?;
    Ok(())
}
