//! The log of a join, and the rows that were judged and are not yet in it: what is kept while the next ones are read.

ghost use Rattle.std.specs.Prelude.{◌≡◌, ℕ, ◌+◌, ◌^◌, ◌<◌, ◌≤◌, [], not, List, length, IfSome};
ghost use Rattle.cap_codec.specs.Rows.{RawValue};
ghost use Rattle.peer_rows.specs.Keeping.{HoldsJudged, KeepsAll};

use crate::gathering::Gathered;
use crate::images::log_stop;
use crate::log::Log;
use crate::offering::take_all;
use auth_entry::{AuthorisedEntry, RowRefusal};
use lms_core::PeerScheme;
use ns_state::LOG_LIMIT;
use peer_stage::Stop;
use std::alloc::Global;
use std::mem;

/// What came of the judging of a row.
pub(crate) type Verdict = Result<AuthorisedEntry<PeerScheme>, RowRefusal>;

/// Rows of a stream, in order: those of which this is the log, and behind them those that were judged.
#[derive(Drop)]
pub(crate) struct Keeping {
    pub(crate) log: Log,
    pub(crate) judged: Vec<Verdict>,
}

impl Keeping {
    /// No row is judged behind those of this log.
    pub(crate) fn new(alloc: Global, log: Log) -> Keeping
        ensures log { result.log ≡ log }
        ensures none { result.judged.items ≡ [] }
    {
        Keeping {
            log,
            judged: Vec::new(alloc),
        }
    }

    /// How many rows the log has room for.
    pub(crate) fn room(&self) -> usize
        requires { self.now.log.counts.stored ≤ LOG_LIMIT }
        ensures { self.now.log.counts.stored + result ≡ LOG_LIMIT }
    {
        LOG_LIMIT - self.log.counts.stored as usize
    }

    /// For how many rows the log is sure to have room behind all that are held; None where none is held, or one of them may
    /// meet a full log.
    pub(crate) fn room_behind(&self) -> Option<usize>
        requires { self.now.log.counts.stored ≤ LOG_LIMIT }
        ensures { IfSome result (λ room. self.now.log.counts.stored + length self.now.judged.items + room ≤ LOG_LIMIT) }
    {
        let room = self.room();
        let held = self.judged.len();
        if held == 0 || room < held {
            return None;
        }
        Some(room - held)
    }

    /// Holds rows that were judged behind those of the log, where none is held. Answers whether the input goes on behind them.
    pub(crate) fn hold(&mut self, gathered: Gathered) -> bool
        ensures log { self.new.log ≡ self.old.log }
        ensures held { self.new.judged.items ≡ gathered.judged.items }
        ensures goes_on { result ≡ not gathered.ended }
    {
        self.judged = gathered.judged;
        !gathered.ended
    }

    /// Takes those that were judged into the log, in order, up to the first that meets a full one.
    pub(crate) fn settle(&mut self, alloc: Global) -> Result<(), Stop>
        requires { (namespace : List ℕ) × (rows : List RawValue) × HoldsJudged namespace rows self.old × (length rows < 2 ^ 64) }
        ensures { (namespace : List ℕ) (rows : List RawValue) → HoldsJudged namespace rows self.old → KeepsAll namespace rows self.new result }
    {
        let judged = mem::replace(&mut self.judged, Vec::new(alloc));
        match take_all(&mut self.log, judged) {
            Ok(()) => Ok(()),
            Err(end) => Err(log_stop(end)),
        }
    }
}
