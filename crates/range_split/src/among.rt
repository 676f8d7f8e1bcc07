//! The rows that a box includes, told by their positions, which the caller has found: so no other row is looked at.

ghost use Rattle.std.specs.Prelude.{◌≡◌, ◌<◌, ◌≤◌, ◌^◌, Some, length, map, slice_get, IfOk};
ghost use Rattle.block_store.specs.InBox.{is_in, rows_in};
ghost use Rattle.block_store.specs.Positions.{positions};
ghost use Rattle.range_split.specs.Choice.{subspaces_of};
ghost use Rattle.range_split.specs.Least.{least_above};
ghost use Rattle.range_split.specs.Quarters.{timestamps_of};

use crate::least::{lesser, subspace_over};
use crate::rows::row_at;
use block_store::Snapshot;
use block_store::laws::numbering;
use std::alloc::Global;
use willow_area::Box3;
use willow_entry::Row;
use willow_path::{NoMemory, UserKey};

// The n-th of the rows that the box includes, counted from 0.
pub(crate) fn row_among<'a, R: Row>(
    snapshot: &'a Snapshot<R>,
    area: &Box3,
    found: &[u32],
    n: usize,
) -> &'a R
    requires found { found.now ≡ positions (is_in area.now) (map R.value snapshot.now) }
    requires within { n < length found.now }
    ensures { slice_get (rows_in area.now (map R.value snapshot.now)) n ≡ Some (R.value result.now) }
{
    numbering();
    row_at(snapshot, found[n])
}

// The least of the rows' subspaces that are above this one.
pub(crate) fn least_among<R: Row>(
    snapshot: &Snapshot<R>,
    area: &Box3,
    found: &[u32],
    low: &UserKey,
) -> Option<UserKey>
    requires { found.now ≡ positions (is_in area.now) (map R.value snapshot.now) }
    ensures { result ≡ least_above low.now (subspaces_of (rows_in area.now (map R.value snapshot.now))) }
{
    let mut least = None;
    for n in 0..found.len() {
        least = lesser(
            least,
            subspace_over(row_among(snapshot, area, found, n), low),
        );
    }
    least
}

// The rows' times, in the order of the rows.
pub(crate) fn times_among<R: Row>(
    alloc: Global,
    snapshot: &Snapshot<R>,
    area: &Box3,
    found: &[u32],
) -> Result<Vec<u64>, NoMemory>
    requires { found.now ≡ positions (is_in area.now) (map R.value snapshot.now) }
    ensures times { IfOk result (λ times. times.items ≡ timestamps_of (rows_in area.now (map R.value snapshot.now))) }
    ensures few { IfOk result (λ times. length times.items ≤ 2 ^ 32) }
{
    let _rows = snapshot.len();
    let mut times = Vec::new(alloc);
    for n in 0..found.len() {
        times.push(row_among(snapshot, area, found, n).entry().timestamp)?;
    }
    Ok(times)
}
