//! Rows that are offered to a log of live rows, by a command.

ghost use Rattle.std.specs.Prelude.{◌≡◌, ◌+◌, ◌<◌, ◌≤◌, All, List, length, map, IfOk, IfErr, IsErrOf, OnErr, if◌then◌else◌};
ghost use Rattle.spelling.specs.declared.ending.End.TheVariants as ends;
ghost use Rattle.willow_entry.specs.Row.{RowValue};
ghost use Rattle.peer_rows.specs.RowLogs.{HasTaken, IsRefusal, OffersRow, OffersRows};

use ns_state::{LOG_LIMIT, LiveLog, LogFull};
use spelling::End;
use willow_entry::Row;

/// A command has one pass, whoever its rows come from.
pub(crate) const PASS: u32 = 0;

/// Offers a row of the log's namespace, and answers whether it is stored: where a row before it equals or dominates it,
/// it is kept out. A row that would be stored is refused where the log is full.
pub(crate) fn offer_row<R: Row>(log: &mut LiveLog<R>, row: R) -> Result<bool, End<LogFull>>
    requires { (R.value row).entry.namespace ≡ log.old.namespace }
    ensures offers { (seen : List RowValue) → HasTaken R.value seen log.old → OffersRow R.value seen (R.value row) log.new result }
    ensures namespace { log.new.namespace ≡ log.old.namespace }
    ensures counts { IfOk result (λ stored. length log.new.log ≡ length log.old.log + (if stored then 1 else 0)) }
    ensures full { IfErr result (λ end. IsRefusal end → LOG_LIMIT ≤ length log.old.log) }
    ensures few { length log.new.log ≤ LOG_LIMIT }
    ensures memory { IsErrOf result ends.NoMemory → length log.new.log < LOG_LIMIT }
    ensures err { OnErr result (log.new ≡ log.old) }
{
    Ok(log.offer(PASS, row)?.is_some())
}

/// Offers rows of the log's namespace in order, up to the first that is refused. Memory is asked for where the log has
/// room.
pub fn offer_rows<R: Row>(log: &mut LiveLog<R>, rows: Vec<R>) -> Result<(), End<LogFull>>
    requires { All (λ (row : RowValue). row.entry.namespace ≡ log.old.namespace) (map R.value rows.items) }
    ensures offers { (seen : List RowValue) → HasTaken R.value seen log.old → OffersRows R.value seen (map R.value rows.items) log.new result }
    ensures namespace { log.new.namespace ≡ log.old.namespace }
    ensures more { length log.old.log ≤ length log.new.log }
    ensures few { length log.new.log ≤ length log.old.log + length rows.items }
    ensures memory { IsErrOf result ends.NoMemory → length log.new.log < LOG_LIMIT }
{
    for row in rows {
        offer_row(log, row)?;
    }
    Ok(())
}
