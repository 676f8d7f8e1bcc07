//! Rows of the generator, as slices that a log may keep.

ghost use Rattle.std.specs.Prelude.{◌<◌, ◌≤◌, IfOk};
ghost use Rattle.std.specs.List.{AllByRecursion};
ghost use Rattle.cap_codec.specs.Rows.{IsRawRow, row_of};
ghost use Rattle.row_stream.specs.Streams.{IsStreamRow};
ghost use Rattle.log_keeper.specs.Slices.{logged_rows};

use crate::stop::Stop;
use cap_codec::RawRow;
use peer_listing::{GENERATED_ROWS, generated_row};
use spelling::NoMemory;
use std::alloc::Global;
use willow_entry::{LogRow, same};

// Row i of the generator, which a log may keep.
#[tactic(auto, using(crate::proofs::KeptRows::framed_row))]
fn made_row(alloc: Global, i: u32) -> Result<RawRow, NoMemory>
    requires { i < GENERATED_ROWS }
    ensures { IfOk result (λ row. IsStreamRow IsRawRow (row_of row)) }
{
    let row = generated_row(alloc, i)?;
    row.known();
    Ok(row)
}

// The rows of the generator from one to before another.
fn rows_between(alloc: Global, from: u32, to: u32) -> Result<Vec<LogRow<RawRow>>, NoMemory>
    requires { to ≤ GENERATED_ROWS }
    ensures { IfOk result (λ v. AllByRecursion (IsStreamRow IsRawRow) (logged_rows row_of v.items)) }
{
    let mut slice = Vec::new(alloc);
    for i in from..to {
        let row = made_row(alloc, i)?;
        slice.push(LogRow { pass: 0, row })?;
    }
    Ok(slice)
}

/// So many rows of the generator from one on.
pub(crate) fn slice(alloc: Global, from: u32, size: u32) -> Result<Vec<LogRow<RawRow>>, Stop>
    ensures { IfOk result (λ v. AllByRecursion (IsStreamRow IsRawRow) (logged_rows row_of v.items)) }
{
    match from.checked_add(size) {
        Some(to) if to <= GENERATED_ROWS => Ok(rows_between(alloc, from, to)?),
        _ => Err(Stop::NoMoreRows),
    }
}

// Whether this is row i of the generator.
fn is_made(alloc: Global, row: &RawRow, i: u32) -> Result<bool, NoMemory> {
    if i >= GENERATED_ROWS {
        return Ok(false);
    }
    Ok(same(row, &generated_row(alloc, i)?))
}

/// Whether these are the first rows of the generator, in order.
pub(crate) fn are_first(alloc: Global, rows: &[RawRow]) -> Result<bool, NoMemory> {
    for (row, i) in rows.iter().zip(0..GENERATED_ROWS) {
        if !is_made(alloc, row, i)? {
            return Ok(false);
        }
    }
    Ok(rows.len() <= GENERATED_ROWS as usize)
}
