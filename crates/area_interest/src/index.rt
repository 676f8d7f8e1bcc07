//! Rows by recency.

ghost use Rattle.std.specs.Prelude.{◌≡◌, ◌+◌, ◌^◌, ◌-◌, ◌<◌, ◌≤◌, length, false, IfOk};
ghost use Rattle.willow_entry.specs.Row.{IsRising};
ghost use Rattle.block_store.specs.BoxKinds.{IsOfOneNamespace};
ghost use Rattle.block_store.specs.Held.{values_of};
ghost use Rattle.recency_index.specs.Recency.{newest, has_at};
ghost use Rattle.recency_index.specs.Rows.{items_of};

use recency_index::Recency;
use std::alloc::Global;
use std::sync::Arc;
use willow_entry::Row;
use willow_path::NoMemory;

// The items of the rows.
pub(crate) fn index_of<R: Row>(alloc: Global, rows: &[Arc<R>]) -> Result<Recency, NoMemory>
    requires few { length rows.now < 2 ^ 31 }
    requires rising { IsRising (values_of R.value rows.now) }
    requires one { IsOfOneNamespace (values_of R.value rows.now) }
    ensures items { IfOk result (λ index. index.items ≡ newest (items_of (values_of R.value rows.now))) }
    ensures few { IfOk result (λ index. length index.items ≤ length rows.now) }
{
    let mut index = Recency::new(alloc);
    for row in rows {
        index.insert((**row).entry())?;
    }
    Ok(index)
}
