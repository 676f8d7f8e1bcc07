//! The laws of logs. These functions do nothing: each is called, if at all, for its clauses.

ghost use Rattle.std.specs.Prelude.{◌≡◌, ◌↔◌, ◌≤◌, List, ◌++◌, length, Contains};
ghost use Rattle.willow_entry.specs.LogRow.{LogValue};
ghost use Rattle.willow_entry.specs.Row.{RowValue, live, new, HasCovering};
ghost use Rattle.ns_state.specs.Machine.{Event, rows_logged, run, accepted};

use crate::live_log::LOG_LIMIT;

/// Whatever events there are, in whatever order: what is live of the log is what is live of all accepted rows; the rows
/// of the log are those of the accepted ones, in order, that no row before them covers; it is no longer than the limit. So
/// two lists of events in which the same rows are accepted give the same store.
#[tactic(auto, using(crate::proofs::Core::run_live, crate::proofs::Core::run_new, crate::proofs::Core::run_short, crate::proofs::Core::run_same))]
pub fn core()
    ensures live { (log : List LogValue) (events : List Event) → live (rows_logged (run log events)) ≡ live (accepted log events) }
    ensures new { (log : List LogValue) (events : List Event) → new (rows_logged log) ≡ rows_logged log → rows_logged (run log events) ≡ new (accepted log events) }
    ensures few { (log : List LogValue) (events : List Event) → length log ≤ LOG_LIMIT → length (run log events) ≤ LOG_LIMIT }
    ensures same { (log log' : List LogValue) (events events' : List Event) → ((r : RowValue) → Contains (accepted log events) r ↔ Contains (accepted log' events') r)
        → live (rows_logged (run log events)) ≡ live (rows_logged (run log' events')) }
{}

/// A row of a log is covered by what is live of every longer log, and the log after some events is a longer one.
#[tactic(auto, using(crate::proofs::Core::never_lost, crate::proofs::Core::run_grows))]
pub fn nothing_is_lost()
    ensures covered { (log more : List LogValue) (r : RowValue) → Contains (rows_logged log) r → HasCovering (live (rows_logged (log ++ more))) r }
    ensures grows { (log : List LogValue) (events : List Event) → (more : List LogValue) × (run log events ≡ log ++ more) }
{}

/// The limit is this number.
pub fn log_limit()
    ensures { LOG_LIMIT ≡ 65536 }
{}
