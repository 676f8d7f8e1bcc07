//! What one namespace keeps of the rows that are offered to it: the live ones, with the numbers of a join.

ghost use Rattle.std.specs.Prelude.{◌≡◌, ℕ, ◌+◌, ◌-◌, ◌^◌, ◌<◌, ◌≤◌, [], List, length, None, Some, OnOk, OnErr};
ghost use Rattle.spelling.specs.Answers.{or_else};
ghost use Rattle.cap_codec.specs.Rows.{RawValue};
ghost use Rattle.auth_entry.specs.Authorised.{row_refusal, verdict};
ghost use Rattle.lms_core.specs.Use.{peer_rules};
ghost use Rattle.peer_rows.specs.Logged.{IsLogOf, Offers, with_offered, with_refused};

use crate::row_log::offer_row;
use auth_entry::{AuthorisedEntry, RowRefusal};
use lms_core::PeerScheme;
use mc_cap::RefusedRow;
use ns_state::{LOG_LIMIT, LiveLog, LogFull};
use peer_stage::JoinCounts;
use spelling::End;
use std::alloc::Global;
use std::mem;
use willow_path::NamespaceKey;

/// A log of the authorised ones of the rows that were judged for it, and the numbers of all of them.
#[derive(Drop)]
pub(crate) struct Log {
    pub(crate) kept: LiveLog<AuthorisedEntry<PeerScheme>>,
    pub(crate) counts: JoinCounts,
    ghost same: { length kept.log ≡ counts.stored },
    ghost sums: { counts.stored + counts.kept + counts.refused ≡ counts.rows },
}

impl Log {
    pub(crate) fn new(alloc: Global, namespace: NamespaceKey) -> Log
        ensures kept { result.kept ≡ record { namespace = namespace; log = [] } }
        ensures counts { result.counts ≡ record { rows = 0; stored = 0; kept = 0; refused = 0; first = None } }
    {
        let counts = JoinCounts {
            rows: 0,
            stored: 0,
            kept: 0,
            refused: 0,
            first: None,
        };
        Log {
            kept: LiveLog::new(alloc, namespace),
            counts,
        }
    }

    /// Takes a row of a stream that was judged in the log's namespace: it is offered to the log where it is authorised, and
    /// counted.
    pub(crate) fn take(
        &mut self,
        judged: Result<AuthorisedEntry<PeerScheme>, RowRefusal>,
    ) -> Result<(), End<LogFull>>
        requires few { self.old.counts.rows < 2 ^ 64 - 1 }
        requires judged { (row : RawValue) × (judged ≡ verdict peer_rules self.old.kept.namespace row) }
        ensures offers { (namespace : List ℕ) (seen : List RawValue) (row : RawValue) → judged ≡ verdict peer_rules namespace row
            → IsLogOf namespace seen self.old.kept self.old.counts → Offers namespace seen row self.new.kept self.new.counts result }
        ensures fits { OnOk result (self.new.counts.stored ≤ LOG_LIMIT) }
        ensures err { OnErr result (self.new ≡ self.old) }
    {
        match judged {
            Ok(entry) => self.keep(entry),
            Err(refusal) => {
                self.count_refused(refusal);
                Ok(())
            }
        }
    }

    // Counts a row that is not authorised.
    fn count_refused(&mut self, refusal: RowRefusal)
        requires { self.old.counts.rows < 2 ^ 64 - 1 }
        ensures kept { self.new.kept ≡ self.old.kept }
        ensures counts { self.new.counts ≡ with_refused refusal self.old.counts }
        ensures fits { self.new.counts.stored ≤ LOG_LIMIT }
    {
        let _front = self.kept.front();
        let row = self.counts.rows + 1;
        self.counts = JoinCounts {
            rows: row,
            refused: self.counts.refused + 1,
            first: first_of(self.counts.first, RefusedRow { row, refusal }),
            ..self.counts
        };
    }

    // Puts an authorised row into the log, if no row covers it and there is room.
    fn keep(&mut self, entry: AuthorisedEntry<PeerScheme>) -> Result<(), End<LogFull>>
        requires rows { self.old.counts.rows < 2 ^ 64 - 1 }
        requires namespace { entry.namespace ≡ self.old.kept.namespace }
        requires authorised { row_refusal peer_rules entry.namespace entry.row ≡ None }
        ensures offers { (namespace : List ℕ) (seen : List RawValue) → IsLogOf namespace seen self.old.kept self.old.counts
            → Offers namespace seen entry.row self.new.kept self.new.counts result }
        ensures fits { OnOk result (self.new.counts.stored ≤ LOG_LIMIT) }
        ensures err { OnErr result (self.new ≡ self.old) }
    {
        let stored = offer_row(&mut self.kept, entry)?;
        self.counts = offered(&self.counts, stored);
        Ok(())
    }
}

// The first of two, where there is one before.
pub(crate) fn first_of(first: Option<RefusedRow>, next: RefusedRow) -> Option<RefusedRow>
    ensures { result ≡ or_else first (Some next) }
{
    match first {
        Some(row) => Some(row),
        None => Some(next),
    }
}

// The numbers with one authorised row more, which was stored or kept.
fn offered(counts: &JoinCounts, stored: bool) -> JoinCounts
    requires rows { counts.now.rows < 2 ^ 64 - 1 }
    requires sums { counts.now.stored + counts.now.kept + counts.now.refused ≡ counts.now.rows }
    ensures { result ≡ with_offered stored counts.now }
{
    if stored {
        JoinCounts {
            rows: counts.rows + 1,
            stored: counts.stored + 1,
            ..*counts
        }
    } else {
        JoinCounts {
            rows: counts.rows + 1,
            kept: counts.kept + 1,
            ..*counts
        }
    }
}

// Leaves what a command kept as it stands. A run ends behind its command, and its memory goes with it at once; to free a log
// row by row before that takes a tenth of the time of a join. Nothing but memory is left.
pub(crate) fn leave_to_exit<T: Drop>(kept: T) {
    mem::forget(kept);
}
