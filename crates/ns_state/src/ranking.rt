//! What goes from the index of recency where a row is stored.

ghost use Rattle.std.specs.Prelude.{◌≡◌, ◌<◌, length, map, filter, slice_get, Some, IfOk};
ghost use Rattle.recency_index.specs.Recency.{ranked_of};
ghost use Rattle.willow_entry.specs.Row.{RowValue, is_dominating};
ghost use Rattle.recency_index.specs.Rows.{items_of};

use block_store::{BlockStore, Hint};
use recency_index::Ranked;
use willow_entry::Row;
use willow_path::NoMemory;

// The item of the row at this position.
fn item_at<R: Row>(store: &BlockStore<R>, at: u32) -> Result<Ranked, NoMemory>
    requires { at < length store.now }
    ensures { IfOk result (λ item. (r : RowValue) → slice_get (map R.value store.now) at ≡ Some r → item ≡ ranked_of r.entry) }
{
    match store.get(at) {
        Some(row) => Ranked::of(row.entry()),
        None => unreachable!(),
    }
}

// The items of the rows that the row dominates, of which a search told the hint.
pub(crate) fn gone_items<R: Row>(
    store: &BlockStore<R>,
    row: &R,
    hint: Hint,
) -> Result<Vec<Ranked>, NoMemory>
    ensures { IfOk result (λ gone. gone.items ≡ items_of (filter (is_dominating (R.value row.now)) (map R.value store.now))) }
{
    let positions = store.pruned_at(row, hint)?;
    let mut gone = Vec::new(*positions.allocator());
    for at in 0..positions.len() {
        gone.push(item_at(store, positions[at])?)?;
    }
    Ok(gone)
}
