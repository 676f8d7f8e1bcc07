//! The log with which a call begins.

ghost use Rattle.std.specs.Prelude.{◌≡◌, ℕ, ◌+◌, ◌^◌, ◌<◌, List, length, None};
ghost use Rattle.cap_codec.specs.Rows.{RawValue};
ghost use Rattle.auth_entry.specs.Authorised.{row_refusal, verdict};
ghost use Rattle.lms_core.specs.Use.{peer_rules};
ghost use Rattle.peer_run.specs.Opening.{IsOpened, OpensLog, TakesRow, with_refused};

use crate::judging::RowChecker;
use auth_entry::{AuthorisedEntry, Checker, NewChecker, RowRefusal};
use lms_core::PeerScheme;
use mc_cap::RefusedRow;
use ns_state::{LogFull, NsState};
use peer_image::Image;
use peer_rows::log_stop;
use peer_stage::Stop;
use spelling::End;
use std::alloc::Global;
use std::thread::Threads;

// All opening rows are those of the first pass.
const OPENING_PASS: u32 = 0;

/// The log of the authorised rows of an image, and of a log file where there is one; the number of all these rows; and the first
/// that is not authorised.
#[derive(Drop)]
pub(crate) struct Opening {
    pub(crate) state: NsState<AuthorisedEntry<PeerScheme>>,
    pub(crate) rows: u64,
    pub(crate) first: Option<RefusedRow>,
}

/// The log of the authorised rows of an image, offered in order. They are judged together.
pub(crate) fn open_log<R: Threads + Sync>(
    rt: &R,
    alloc: Global,
    image: Image,
) -> Result<Opening, Stop>
    requires few { length image.rows.items < 2 ^ 64 }
    ensures { OpensLog image.namespace image.rows.items result }
{
    let Image { namespace, rows } = image;
    let mut checker = RowChecker::begin(alloc, PeerScheme, namespace)?;
    let verdicts = checker.check_all(rt, alloc, rows)?;
    let mut opening = Opening {
        state: NsState::new(alloc, namespace),
        rows: 0,
        first: None,
    };
    for judged in verdicts {
        match opening.take(judged) {
            Ok(()) => {}
            Err(end) => return Err(log_stop(end)),
        }
    }
    Ok(opening)
}

impl Opening {
    // Takes the next row of the image, which was judged in the log's namespace: one that is not authorised is left out.
    fn take(
        &mut self,
        judged: Result<AuthorisedEntry<PeerScheme>, RowRefusal>,
    ) -> Result<(), End<LogFull>>
        requires few { self.old.rows + 1 < 2 ^ 64 }
        requires judged { (row : RawValue) × (judged ≡ verdict peer_rules self.old.state.namespace row) }
        ensures { (namespace : List ℕ) (seen : List RawValue) (row : RawValue) → judged ≡ verdict peer_rules namespace row
            → IsOpened namespace seen self.old → TakesRow namespace seen row self.new result }
    {
        match judged {
            Ok(entry) => self.keep(entry),
            Err(refusal) => {
                self.leave_out(refusal);
                Ok(())
            }
        }
    }

    // Counts a row that is not authorised.
    fn leave_out(&mut self, refusal: RowRefusal)
        requires { self.old.rows + 1 < 2 ^ 64 }
        ensures { self.new ≡ with_refused refusal self.old }
    {
        self.rows += 1;
        if self.first.is_none() {
            self.first = Some(RefusedRow {
                row: self.rows,
                refusal,
            });
        }
    }

    // Offers an authorised row to the log.
    fn keep(&mut self, entry: AuthorisedEntry<PeerScheme>) -> Result<(), End<LogFull>>
        requires few { self.old.rows + 1 < 2 ^ 64 }
        requires namespace { entry.namespace ≡ self.old.state.namespace }
        requires authorised { row_refusal peer_rules entry.namespace entry.row ≡ None }
        ensures { (seen : List RawValue) → IsOpened entry.namespace seen self.old → TakesRow entry.namespace seen entry.row self.new result }
    {
        self.state.ingest(OPENING_PASS, entry)?;
        self.rows += 1;
        Ok(())
    }
}
