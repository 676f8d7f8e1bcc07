//! Rows of a snapshot by their positions.

ghost use Rattle.std.specs.Prelude.{◌≡◌, ◌<◌, Some, length, map, slice_get};
ghost use Rattle.std.specs.List.Sorted.{IsStrictlySortedBy};
ghost use Rattle.willow_entry.specs.Row.{inner_place_cmp};
ghost use Rattle.block_store.specs.BoxKinds.{IsOfOneNamespace};
ghost use Rattle.block_store.specs.InBox.{is_in, rows_in};
ghost use Rattle.block_store.specs.Positions.{positions};

use block_store::Snapshot;
use block_store::laws::numbering;
use willow_area::Box3;
use willow_entry::Row;

/// The row at the position.
pub fn row_at<R: Row>(snapshot: &Snapshot<R>, at: u32) -> &R
    requires { at < length snapshot.now }
    ensures { slice_get (map R.value snapshot.now) at ≡ Some (R.value result.now) }
{
    match snapshot.get(at) {
        None => unreachable!(),
        Some(row) => row,
    }
}

/// The position of the n-th row, counted from 0, that the box includes, and the row. There are more than n such rows.
pub fn nth<'a, R: Row>(snapshot: &'a Snapshot<R>, area: &Box3, n: u32) -> (u32, &'a R)
    requires { n < length (rows_in area.now (map R.value snapshot.now)) }
    ensures at { slice_get (positions (is_in area.now) (map R.value snapshot.now)) n ≡ Some result.0 }
    ensures held { slice_get (map R.value snapshot.now) result.0 ≡ Some (R.value result.1.now) }
    ensures row { slice_get (rows_in area.now (map R.value snapshot.now)) n ≡ Some (R.value result.1.now) }
{
    numbering();
    match snapshot.nth_in(area, n) {
        None => unreachable!(),
        Some(at) => (at, row_at(snapshot, at)),
    }
}

// Does nothing: it is called for its clause, that rows of one namespace rise by subspace and path.
#[tactic(auto, using(crate::proofs::Rising::live_rows_rise))]
pub(crate) fn known_rising<R: Row>(snapshot: &Snapshot<R>)
    requires { IsOfOneNamespace (map R.value snapshot.now) }
    ensures { IsStrictlySortedBy inner_place_cmp (map R.value snapshot.now) }
{
    let _row = snapshot.get(0);
}
