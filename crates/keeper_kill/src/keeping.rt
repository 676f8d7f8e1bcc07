//! Keeping slices, one after the other.

ghost use Rattle.std.specs.List.{AllByRecursion};
ghost use Rattle.cap_codec.specs.Rows.{IsRawRow, row_of};
ghost use Rattle.row_stream.specs.Streams.{IsStreamRow};
ghost use Rattle.log_keeper.specs.Slices.{logged_rows};

use crate::made::slice;
use crate::opening::Keeper;
use crate::stop::Stop;
use cap_codec::{RawRow, RawRows};
use log_keeper::laws::slices_are_short;
use std::alloc::Global;
use willow_entry::LogRow;

// How many rows a slice may have.
const MOST: usize = 256;

// Keeps the slice, and answers how many rows the file then holds.
fn keep(keeper: &mut Keeper, slice: &[LogRow<RawRow>]) -> Result<u64, Stop>
    requires { AllByRecursion (IsStreamRow IsRawRow) (logged_rows row_of slice.now) }
{
    slices_are_short::<RawRows>();
    if keeper.is_broken() || keeper.end() >= 1 << 62 || slice.is_empty() || slice.len() > MOST {
        return Err(Stop::NoTask);
    }
    Ok(keeper.keep(slice)?)
}

// Keeps so many rows from this one on, and answers how many the file then holds.
fn keep_from(alloc: Global, keeper: &mut Keeper, from: u64, size: u32) -> Result<u64, Stop> {
    match u32::try_from(from) {
        Ok(from) => keep(keeper, &slice(alloc, from, size)?),
        Err(_) => Err(Stop::NoMoreRows),
    }
}

/// Keeps so many slices of so many rows, behind the rows that the file holds, and tells behind each how many it then holds.
pub(crate) fn keep_slices(
    rt: &HostRuntime,
    alloc: Global,
    keeper: &mut Keeper,
    held: u64,
    slices: u32,
    size: u32,
) -> Result<(), Stop> {
    let mut held = held;
    for _ in 0..slices {
        held = keep_from(alloc, keeper, held, size)?;
        println!(rt; "kept {held}")?;
    }
    Ok(())
}
