//! The rows that a box includes.

ghost use Rattle.std.specs.Prelude.{◌≡◌, map, IfOk};
ghost use Rattle.block_store.specs.Held.{values_of};
ghost use Rattle.block_store.specs.InBox.{rows_in};

use block_store::Snapshot;
use std::alloc::Global;
use std::sync::Arc;
use willow_area::Box3;
use willow_entry::Row;
use willow_path::NoMemory;

// The rows that the box includes, by rising place, each shared once more.
pub(crate) fn rows_inside<R: Row>(
    alloc: Global,
    snapshot: &Snapshot<R>,
    area: &Box3,
) -> Result<Vec<Arc<R>>, NoMemory>
    ensures { IfOk result (λ rows. values_of R.value rows.items ≡ rows_in area.now (map R.value snapshot.now)) }
{
    let positions = snapshot.positions_in(area)?;
    let mut rows = Vec::with_capacity(alloc, positions.len())?;
    for at in &positions {
        match snapshot.shared(*at)? {
            None => unreachable!(),
            Some(row) => rows.push(row)?,
        }
    }
    Ok(rows)
}
