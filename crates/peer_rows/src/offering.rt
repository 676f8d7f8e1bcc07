//! Rows that are judged together, and kept.

ghost use Rattle.std.specs.Prelude.{◌≡◌, ℕ, ◌+◌, ◌^◌, ◌<◌, ◌≤◌, List, length, map, OnOk};
ghost use Rattle.lms_core.specs.Use.{peer_rules};
ghost use Rattle.auth_entry.specs.Authorised.{verdict};
ghost use Rattle.cap_codec.specs.Rows.{RawValue};
ghost use Rattle.peer_rows.specs.Logged.{IsLogOf};
ghost use Rattle.peer_rows.specs.Stored.{OffersAll, TakesAll};

use crate::keeping::Verdict;
use crate::log::Log;
use auth_entry::Checker;
use cap_codec::RawRow;
use lms_core::PeerScheme;
use ns_state::{LOG_LIMIT, LogFull};
use spelling::End;
use std::alloc::Global;
use std::thread::Threads;

/// Offers the rows to the log: they are judged together, and those that are authorised are taken in order, up to the first
/// that meets a full log.
pub(crate) fn offer_all<C: Checker<PeerScheme>, R: Threads + Sync>(
    rt: &R,
    alloc: Global,
    checker: &mut C,
    log: &mut Log,
    rows: Vec<RawRow>,
) -> Result<(), End<LogFull>>
    requires namespace { C.judged_in checker.old ≡ log.old.kept.namespace }
    requires few { (namespace : List ℕ) × (seen : List RawValue) × IsLogOf namespace seen log.old.kept log.old.counts × (length seen + length rows.items < 2 ^ 64) }
    requires fits { log.old.counts.stored ≤ LOG_LIMIT }
    ensures namespace { C.judged_in checker.new ≡ C.judged_in checker.old }
    ensures offers { (namespace : List ℕ) (seen : List RawValue) → IsLogOf namespace seen log.old.kept log.old.counts
        → OffersAll namespace seen rows.items log.old log.new result }
    ensures fits { OnOk result (log.new.counts.stored ≤ LOG_LIMIT) }
{
    let verdicts = checker.check_all(rt, alloc, rows)?;
    take_all(log, verdicts)
}

/// Takes rows that were judged in the log's namespace, in order, up to the first that meets a full log. Memory is asked for
/// where the log has room.
pub(crate) fn take_all(log: &mut Log, verdicts: Vec<Verdict>) -> Result<(), End<LogFull>>
    requires few { (namespace : List ℕ) × (seen : List RawValue) × (rows : List RawValue) × IsLogOf namespace seen log.old.kept log.old.counts
        × (verdicts.items ≡ map (verdict peer_rules namespace) rows) × (length seen + length rows < 2 ^ 64) }
    requires fits { log.old.counts.stored ≤ LOG_LIMIT }
    ensures takes { (namespace : List ℕ) (seen rows : List RawValue) → IsLogOf namespace seen log.old.kept log.old.counts → verdicts.items ≡ map (verdict peer_rules namespace) rows
        → TakesAll namespace seen rows log.new result }
    ensures fits { OnOk result (log.new.counts.stored ≤ LOG_LIMIT) }
{
    for judged in verdicts {
        log.take(judged)?;
    }
    Ok(())
}
