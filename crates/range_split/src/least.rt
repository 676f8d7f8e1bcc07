//! The least subspace above another.

ghost use Rattle.std.specs.Prelude.{◌≡◌, ◌+◌, ◌<◌, ◌≤◌, [], ◌∷◌, length, map, take};
ghost use Rattle.std.specs.Ordering.{is_gt};
ghost use Rattle.willow_entry.specs.Entry.{bytes_cmp};
ghost use Rattle.block_store.specs.InBox.{rows_in};
ghost use Rattle.range_split.specs.Choice.{subspaces_of};
ghost use Rattle.range_split.specs.Least.{lesser, least_above};

use crate::rows::row_at;
use block_store::Snapshot;
use willow_area::Box3;
use willow_entry::Row;
use willow_path::UserKey;

// Whether the subspace is above the other.
pub(crate) fn is_above(key: &UserKey, low: &UserKey) -> bool
    ensures { result ≡ is_gt (bytes_cmp key.now low.now) }
{
    key.cmp(low).is_gt()
}

// The least subspace of the rows that the box includes, of those that are above this one. These rows stand from the
// position `start` to the position `last`.
pub(crate) fn least_above<R: Row>(
    snapshot: &Snapshot<R>,
    area: &Box3,
    low: &UserKey,
    start: u32,
    last: u32,
) -> Option<UserKey>
    requires before { rows_in area.now (take start (map R.value snapshot.now)) ≡ [] }
    requires upto { rows_in area.now (take (last + 1) (map R.value snapshot.now)) ≡ rows_in area.now (map R.value snapshot.now) }
    requires order { start ≤ last }
    requires within { last < length snapshot.now }
    ensures { result ≡ least_above low.now (subspaces_of (rows_in area.now (map R.value snapshot.now))) }
{
    let mut least = None;
    for at in start..=last {
        least = lesser(least, subspace_above(row_at(snapshot, at), area, low));
    }
    least
}

// The row's subspace, where the box includes the row and the subspace is above this one.
fn subspace_above<R: Row>(row: &R, area: &Box3, low: &UserKey) -> Option<UserKey>
    ensures { result ≡ least_above low.now (subspaces_of (rows_in area.now (R.value row.now ∷ []))) }
{
    let entry = row.entry();
    let inside = area.includes(&entry.subspace, &entry.path, entry.timestamp);
    (inside && is_above(&entry.subspace, low)).then_some(entry.subspace)
}

// The row's subspace, where it is above this one.
pub(crate) fn subspace_over<R: Row>(row: &R, low: &UserKey) -> Option<UserKey>
    ensures { result ≡ least_above low.now (subspaces_of (R.value row.now ∷ [])) }
{
    let subspace = row.entry().subspace;
    is_above(&subspace, low).then_some(subspace)
}

// The lesser of two subspaces, of which either may be wanting.
pub(crate) fn lesser(one: Option<UserKey>, other: Option<UserKey>) -> Option<UserKey>
    ensures { result ≡ lesser one other }
{
    match (one, other) {
        (None, other) => other,
        (one, None) => one,
        (Some(one), Some(other)) => Some(one.min(other)),
    }
}
