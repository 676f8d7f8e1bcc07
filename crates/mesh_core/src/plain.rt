//! The rows of nodes as those who ask for them get them.

ghost use Rattle.std.specs.Prelude.{◌≡◌, ◌+◌, ◌^◌, ◌<◌, ◌≤◌, [], ◌∷◌, length, map, slice_get, IfOk, OnOk, Some};
ghost use Rattle.willow_entry.specs.Row.{AreLive, join};
ghost use Rattle.cap_codec.specs.Rows.{row_of};
ghost use Rattle.mesh_core.specs.Held.{nodes_of};
ghost use Rattle.mesh_core.specs.Generated.{HoldGenerated};

use crate::shared::MeshRow;
use block_store::{BlockStore, Snapshot};
use cap_codec::RawRow;
use std::alloc::Global;
use std::sync::Arc;
use willow_entry::Row;
use willow_path::NoMemory;

// The row at a position.
fn row_at(store: &BlockStore<MeshRow>, at: u32) -> &MeshRow
    requires { at < length store.now }
    ensures { slice_get store.now at ≡ Some result.now }
{
    match store.get(at) {
        None => unreachable!(),
        Some(row) => row,
    }
}

// The store takes a row that others share.
fn take_shared<R: Row>(store: &mut BlockStore<R>, row: Arc<R>) -> Result<(), NoMemory>
    requires few { length store.old + 1 < 2 ^ 32 }
    ensures rows { OnOk result (map R.value store.new ≡ join (map R.value store.old) (R.value row.value ∷ [])) }
    ensures few { length store.new ≤ length store.old + 1 }
{
    let _placed = store.ingest_shared(row)?;
    Ok(())
}

// The rows of a store, which is live. They stand in memory once.
fn plain(alloc: Global, store: &BlockStore<MeshRow>) -> Result<Snapshot<RawRow>, NoMemory>
    requires { AreLive (map row_of store.now) }
    ensures { IfOk result (λ rows. map row_of rows ≡ map row_of store.now) }
{
    let mut rows = BlockStore::new(alloc);
    for at in 0..store.len() {
        take_shared(&mut rows, row_at(store, at).shared()?)?;
    }
    rows.snapshot()
}

// The rows of each store as they are.
pub(crate) fn snapshots(
    alloc: Global,
    stores: &[BlockStore<MeshRow>],
) -> Result<Vec<Snapshot<RawRow>>, NoMemory>
    requires { HoldGenerated (nodes_of stores.now) }
    ensures { IfOk result (λ snapshots. map (map row_of) snapshots.items ≡ map (map row_of) stores.now) }
{
    let mut snapshots = Vec::new(alloc);
    for store in stores {
        snapshots.push(plain(alloc, store)?)?;
    }
    Ok(snapshots)
}
