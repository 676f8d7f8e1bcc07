//! The own rows of a box.

ghost use Rattle.std.specs.Prelude.{◌≡◌, map, IfOk};
ghost use Rattle.block_store.specs.InBox.{is_in};
ghost use Rattle.block_store.specs.Positions.{positions};
ghost use Rattle.sync_core.specs.Orders.{IsOrderOf};

use block_store::{Snapshot, TimeOrder};
use willow_area::Box3;
use willow_entry::Row;
use willow_path::NoMemory;

// The positions, rising, of the rows of a box, along the order where there is one.
pub(crate) fn found_in<R: Row>(
    snapshot: &Snapshot<R>,
    order: &Option<TimeOrder>,
    area: &Box3,
) -> Result<Vec<u32>, NoMemory>
    requires { IsOrderOf order.now (map R.value snapshot.now) }
    ensures { IfOk result (λ found. found.items ≡ positions (is_in area.now) (map R.value snapshot.now)) }
{
    match order {
        None => snapshot.positions_in(area),
        Some(order) => order.positions_in(snapshot, area),
    }
}
