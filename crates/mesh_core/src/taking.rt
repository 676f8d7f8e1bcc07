//! Rows come to a node.

ghost use Rattle.std.specs.Prelude.{◌≡◌, ◌+◌, ◌^◌, ◌<◌, ◌≤◌, [], ◌∷◌, length, map, OnOk};
ghost use Rattle.willow_entry.specs.Row.{AreLive, join};
ghost use Rattle.cap_codec.specs.Rows.{row_of};
ghost use Rattle.mesh_core.specs.Held.{nodes_of, IsNodeSet};

use crate::shared::MeshRow;
use block_store::BlockStore;
use willow_entry::Row;
use willow_path::NoMemory;

// The store takes a row.
fn take_row<R: Row>(store: &mut BlockStore<R>, row: R) -> Result<(), NoMemory>
    requires few { length store.old + 1 < 2 ^ 32 }
    ensures rows { OnOk result (map R.value store.new ≡ join (map R.value store.old) (R.value row ∷ [])) }
    ensures few { length store.new ≤ length store.old + 1 }
{
    let _placed = store.ingest(row)?;
    Ok(())
}

// The store takes the rows.
#[tactic(auto, using(crate::proofs::Come::none_come))]
fn take_rows<R: Row>(store: &mut BlockStore<R>, rows: Vec<R>) -> Result<(), NoMemory>
    requires few { length store.old + length rows.items < 2 ^ 32 }
    requires live { AreLive (map R.value store.old) }
    ensures { OnOk result (map R.value store.new ≡ join (map R.value store.old) (map R.value rows.items)) }
{
    for row in rows {
        take_row(store, row)?;
    }
    Ok(())
}

// The store of a node takes the rows.
pub(crate) fn take_at(
    stores: &mut Vec<BlockStore<MeshRow>>,
    node: usize,
    rows: Vec<MeshRow>,
) -> Result<(), NoMemory>
    requires within { node < length stores.old.items }
    requires few { length (nodes_of stores.old.items node) + length rows.items < 2 ^ 32 }
    requires live { AreLive (nodes_of stores.old.items node) }
    ensures set { OnOk result (IsNodeSet stores.old.items node (join (nodes_of stores.old.items node) (map row_of rows.items)) stores.new.items) }
    ensures as_many { length stores.new.items ≡ length stores.old.items }
{
    take_rows(&mut stores[node], rows)
}
