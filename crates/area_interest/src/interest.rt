//! Which rows are offered.

ghost use Rattle.std.specs.Prelude.{◌≡◌, ◌^◌, ◌<◌, ◌≤◌, ◌↔◌, [], length, map, IfOk, IsTrue, Contains};
ghost use Rattle.willow_area.specs.AreaBox.{area_box};
ghost use Rattle.willow_entry.specs.Row.{RowValue, AreLive};
ghost use Rattle.block_store.specs.BoxKinds.{IsOfOneNamespace};
ghost use Rattle.block_store.specs.InBox.{rows_in};
ghost use Rattle.area_interest.specs.Interest.{interest};
ghost use Rattle.area_interest.specs.Limits.{HasNoLimit};

use crate::chosen::chosen;
use crate::index::index_of;
use crate::inside::rows_inside;
use crate::last::last_within;
use block_store::{BlockStore, Snapshot};
use std::alloc::Global;
use willow_area::{Area, Box3, box_of};
use willow_entry::Row;
use willow_path::NoMemory;

/// How much of an area a side offers.
#[derive(Clone, Copy, Debug, PartialEq, Eq)]
pub struct Interest {
    /// At most so many rows, the most recent ones; None leaves all.
    pub newest: Option<u32>,
    /// Rows whose payloads have at most so many bytes together; None leaves all.
    pub bytes: Option<u64>,
}

// Whether nothing is limited.
fn has_no_limit(limits: &Interest) -> bool
    ensures { IsTrue result ↔ HasNoLimit limits.now }
{
    limits.newest.is_none() && limits.bytes.is_none()
}

// Does nothing: it is called for its clause.
fn known<R: Row>(snapshot: &Snapshot<R>)
    ensures { AreLive (map R.value snapshot.now) }
{
    let _rows = snapshot.rows();
}

// The limit on the number of rows.
fn count_of(limits: &Interest) -> Option<u64>
    ensures { result ≡ limits.now.newest }
{
    match limits.newest {
        None => None,
        Some(count) => Some(u64::from(count)),
    }
}

// No row.
fn none_of<R: Row>(alloc: Global) -> Result<Snapshot<R>, NoMemory>
    ensures { IfOk result (λ none. none ≡ []) }
{
    let store = BlockStore::new(alloc);
    store.snapshot()
}

// The rows of the box that are offered.
fn offered_in<R: Row>(
    alloc: Global,
    snapshot: &Snapshot<R>,
    area: &Box3,
    limits: &Interest,
) -> Result<Snapshot<R>, NoMemory>
    requires few { length snapshot.now < 2 ^ 31 }
    requires one { IsOfOneNamespace (map R.value snapshot.now) }
    ensures { IfOk result (λ offered. map R.value offered ≡ interest (map R.value snapshot.now) area.now limits.now.newest limits.now.bytes) }
{
    known(snapshot);
    let rows = rows_inside(alloc, snapshot, area)?;
    let index = index_of(alloc, &rows)?;
    let count = count_of(limits);
    let last = last_within(&index, snapshot.len(), count, limits.bytes);
    match last {
        None => none_of(alloc),
        Some(last) => chosen(alloc, rows, last),
    }
}

// The rows of the area that are offered.
fn offered_of<R: Row>(
    alloc: Global,
    snapshot: &Snapshot<R>,
    area: &Area,
    limits: &Interest,
) -> Result<Snapshot<R>, NoMemory>
    requires few { length snapshot.now < 2 ^ 31 }
    requires one { IsOfOneNamespace (map R.value snapshot.now) }
    ensures { IfOk result (λ offered. map R.value offered ≡ interest (map R.value snapshot.now) (area_box area.now) limits.now.newest limits.now.bytes) }
{
    let area = box_of(alloc, area)?;
    offered_in(alloc, snapshot, &area, limits)
}

/// What a side offers of its rows. Where a limit stands, these are the most recent rows of the area, as far as the limits
/// on their number and on the sum of their payloads' lengths leave: none behind the first that goes past a limit. Without
/// limits it is the snapshot as it is, with the rows outside the area, since a session reads those of the area alone. No
/// row is copied. The rows are of one namespace, and fewer than 2^31.
pub fn offered<R: Row>(
    alloc: Global,
    snapshot: &Snapshot<R>,
    area: &Area,
    limits: &Interest,
) -> Result<Snapshot<R>, NoMemory>
    requires few { length snapshot.now < 2 ^ 31 }
    requires one { IsOfOneNamespace (map R.value snapshot.now) }
    ensures limited { (HasNoLimit limits.now → ⊥) → IfOk result (λ offered. map R.value offered ≡ interest (map R.value snapshot.now) (area_box area.now) limits.now.newest limits.now.bytes) }
    ensures unlimited { HasNoLimit limits.now → IfOk result (λ offered. offered ≡ snapshot.now) }
    ensures inside { IfOk result (λ offered. rows_in (area_box area.now) (map R.value offered) ≡ interest (map R.value snapshot.now) (area_box area.now) limits.now.newest limits.now.bytes) }
    ensures live { IfOk result (λ offered. AreLive (map R.value offered)) }
    ensures among { IfOk result (λ offered. (row : RowValue) → Contains (map R.value offered) row → Contains (map R.value snapshot.now) row) }
    ensures few { IfOk result (λ offered. length offered ≤ length snapshot.now) }
{
    known(snapshot);
    if has_no_limit(limits) {
        snapshot.share()
    } else {
        offered_of(alloc, snapshot, area, limits)
    }
}
