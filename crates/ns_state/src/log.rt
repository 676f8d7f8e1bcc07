//! The rows of a log, which the store shares.

ghost use Rattle.std.specs.Prelude.{◌≡◌, map, position, take, drop, IfOk};
ghost use Rattle.willow_entry.specs.Row.{is_covering};
ghost use Rattle.ns_state.specs.Log.{plain_row};

use std::alloc::Global;
use std::sync::Arc;
use willow_entry::{LogRow, Row, covers};
use willow_path::NoMemory;

// Whether the row of the log is the row or dominates it.
pub(crate) fn is_cover<R: Row>(held: &LogRow<Arc<R>>, row: &R) -> bool
    ensures { result ≡ is_covering (R.value held.now.row.value) (R.value row.now) }
{
    covers(&*held.row, row)
}

// The first position whose row is the row or dominates it.
pub(crate) fn first_cover<R: Row>(log: &[LogRow<Arc<R>>], row: &R) -> Option<usize>
    ensures { result ≡ position (λ l. is_covering (R.value l.row.value) (R.value row.now)) log.now }
{
    log.iter().position(|held| is_cover(held, row))
}

// The same row, shared once more.
fn share_row<R: Row>(held: &LogRow<Arc<R>>) -> Result<LogRow<Arc<R>>, NoMemory>
    ensures { IfOk result (λ row. plain_row row ≡ plain_row held.now) }
{
    Ok(LogRow {
        pass: held.pass,
        row: held.row.clone()?,
    })
}

// The same rows, shared once more.
fn share_rows<R: Row>(
    alloc: Global,
    log: &[LogRow<Arc<R>>],
) -> Result<Vec<LogRow<Arc<R>>>, NoMemory>
    ensures { IfOk result (λ rows. map plain_row rows.items ≡ map plain_row log.now) }
{
    let mut rows = Vec::new(alloc);
    for at in 0..log.len() {
        rows.push(share_row(&log[at])?)?;
    }
    Ok(rows)
}

// The rows from the position on.
pub(crate) fn rows_from<R: Row>(log: &[LogRow<Arc<R>>], from: usize) -> &[LogRow<Arc<R>>]
    ensures { result.now ≡ drop from log.now }
{
    if from < log.len() {
        &log[from..]
    } else {
        &log[log.len()..]
    }
}

// The first rows, at most so many.
fn first_rows<R: Row>(log: &[LogRow<Arc<R>>], most: usize) -> &[LogRow<Arc<R>>]
    ensures { result.now ≡ take most log.now }
{
    if most < log.len() { &log[..most] } else { log }
}

// At most so many rows from the position on.
pub(crate) fn read_rows<R: Row>(
    alloc: Global,
    log: &[LogRow<Arc<R>>],
    from: usize,
    most: usize,
) -> Result<Vec<LogRow<Arc<R>>>, NoMemory>
    ensures { IfOk result (λ rows. map plain_row rows.items ≡ map plain_row (take most (drop from log.now))) }
{
    share_rows(alloc, first_rows(rows_from(log, from), most))
}
