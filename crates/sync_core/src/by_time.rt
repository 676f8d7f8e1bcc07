//! The order of the own rows by time.
//! It takes four bytes a row. It is made for the first turn that answers for a box which has not all times, and kept from
//! then on: a side that is never asked for such a box never makes it.

ghost use Rattle.std.specs.Prelude.{map};
ghost use Rattle.sync_core.specs.Orders.{IsOrderOf};

use crate::ask::Ask;
use block_store::{Snapshot, TimeOrder};
use std::alloc::Global;
use willow_entry::Row;
use willow_path::NoMemory;

// Makes the order where there is none and an ask has a box that has not all times.
pub(crate) fn order_for<R: Row>(
    alloc: Global,
    snapshot: &Snapshot<R>,
    asks: &[Ask],
    order: &mut Option<TimeOrder>,
) -> Result<(), NoMemory>
    requires { IsOrderOf order.old (map R.value snapshot.now) }
    ensures { IsOrderOf order.new (map R.value snapshot.now) }
{
    if order.is_none() && !asks.iter().all(has_all_times) {
        *order = Some(TimeOrder::of(alloc, snapshot)?);
    }
    Ok(())
}

// Whether no time is outside the box of the ask.
fn has_all_times(ask: &Ask) -> bool {
    let area = match ask {
        Ask::Print { area, .. } => area,
        Ask::Sent { area, .. } => area,
    };
    let times = area.times();
    times.start() == 0 && times.end().is_none()
}
