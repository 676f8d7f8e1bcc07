//! What a log holds.

use crate::made::are_first;
use crate::opening::open;
use crate::stop::Stop;
use std::alloc::Global;

/// Tells how many rows the log of this name holds.
pub(crate) fn tell_count(rt: &HostRuntime, alloc: Global, name: &str) -> Result<(), Stop> {
    let rows = open(rt, alloc, name)?;
    let count = rows.len();
    println!(rt; "holds {count}")?;
    Ok(())
}

/// Tells how many rows the log of this name holds, and whether these are the first of the generator, in order.
pub(crate) fn tell_rows(rt: &HostRuntime, alloc: Global, name: &str) -> Result<(), Stop> {
    let rows = open(rt, alloc, name)?;
    let count = rows.len();
    let what = if are_first(alloc, &rows)? {
        "the first in order"
    } else {
        "which are not the first"
    };
    println!(rt; "holds {count}, {what}")?;
    Ok(())
}
