//! The rows that are no less recent than the last that limits leave.

ghost use Rattle.std.specs.Prelude.{◌≡◌, ◌+◌, ◌-◌, ◌^◌, ◌<◌, ◌≤◌, List, [], ◌∷◌, ◌++◌, length, map, filter, IfOk, OnOk};
ghost use Rattle.willow_entry.specs.Row.{RowValue, live};
ghost use Rattle.block_store.specs.Held.{values_of};
ghost use Rattle.area_interest.specs.Kept.{is_kept};

use block_store::{BlockStore, Snapshot};
use recency_index::{Ranked, entry_by_recency};
use std::alloc::Global;
use std::cmp::Ordering;
use std::sync::Arc;
use willow_entry::Row;
use willow_path::NoMemory;

// Whether the row is no less recent than the item.
fn is_kept<R: Row>(last: &Ranked, row: &R) -> bool
    ensures { result ≡ is_kept last.now (R.value row.now) }
{
    entry_by_recency(row.entry(), last) != Ordering::Greater
}

// The store takes a row.
fn take<R: Row>(store: &mut BlockStore<R>, row: Arc<R>) -> Result<(), NoMemory>
    requires { length store.old < 2 ^ 32 - 1 }
    ensures rows { OnOk result (map R.value store.new ≡ live (map R.value store.old ++ R.value row.value ∷ [])) }
    ensures few { length store.new ≤ length store.old + 1 }
{
    let _placed = store.ingest_shared(row)?;
    Ok(())
}

// The store takes the row, where it is kept.
fn keep<R: Row>(store: &mut BlockStore<R>, last: &Ranked, row: Arc<R>) -> Result<(), NoMemory>
    requires { length store.old < 2 ^ 32 - 1 }
    ensures rows { (seen : List RowValue) → map R.value store.old ≡ live (filter (is_kept last.now) seen) → OnOk result (map R.value store.new ≡ live (filter (is_kept last.now) (seen ++ R.value row.value ∷ []))) }
    ensures few { length store.new ≤ length store.old + 1 }
{
    if is_kept(last, &*row) {
        take(store, row)?;
    }
    Ok(())
}

// The rows that are kept. None is copied.
pub(crate) fn chosen<R: Row>(
    alloc: Global,
    rows: Vec<Arc<R>>,
    last: &Ranked,
) -> Result<Snapshot<R>, NoMemory>
    requires { length rows.items < 2 ^ 31 }
    ensures { IfOk result (λ chosen. map R.value chosen ≡ live (filter (is_kept last.now) (values_of R.value rows.items))) }
{
    let mut store = BlockStore::new(alloc);
    for row in rows {
        keep(&mut store, last, row)?;
    }
    store.snapshot()
}
