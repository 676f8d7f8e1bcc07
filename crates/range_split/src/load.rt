//! How evenly a cut divides the rows of a box: the greatest number of them in one part.

ghost use Rattle.std.specs.Prelude.{◌≡◌, ◌≤◌, length, map, max, IfOk};
ghost use Rattle.block_store.specs.InBox.{is_in, rows_in};
ghost use Rattle.block_store.specs.Positions.{positions};
ghost use Rattle.range_split.specs.PartOf.{part_of};
ghost use Rattle.range_split.specs.Quarters.{greatest, part_sizes};
ghost use Rattle.range_split.specs.Sides.{is_row_below};

use crate::among::row_among;
use crate::parts::point_at;
use block_store::Snapshot;
use std::alloc::Global;
use sync_msg::Points;
use willow_area::{Box3, CutAt};
use willow_entry::Row;
use willow_path::NoMemory;

// The greatest number of the box's rows in one part; all of them where there is no point.
pub(crate) fn load<R: Row>(
    alloc: Global,
    snapshot: &Snapshot<R>,
    area: &Box3,
    found: &[u32],
    points: &Points,
) -> Result<u32, NoMemory>
    requires { found.now ≡ positions (is_in area.now) (map R.value snapshot.now) }
    ensures { IfOk result (λ most. most ≡ greatest (part_sizes points.now (rows_in area.now (map R.value snapshot.now)))) }
{
    let sizes = sizes_among(alloc, snapshot, area, found, points)?;
    Ok(greatest(&sizes))
}

// How many of the box's rows each part has. Each row is looked at once.
fn sizes_among<R: Row>(
    alloc: Global,
    snapshot: &Snapshot<R>,
    area: &Box3,
    found: &[u32],
    points: &Points,
) -> Result<Vec<u32>, NoMemory>
    requires { found.now ≡ positions (is_in area.now) (map R.value snapshot.now) }
    ensures { IfOk result (λ sizes. sizes.items ≡ part_sizes points.now (rows_in area.now (map R.value snapshot.now))) }
{
    let _rows = snapshot.len();
    let mut sizes = vec![in alloc; 0u32; points.len() + 1]?;
    for n in 0..found.len() {
        let part = part_of(points, row_among(snapshot, area, found, n));
        sizes[part] += 1;
    }
    Ok(sizes)
}

// The part in which the row is, counted from 0.
fn part_of<R: Row>(points: &Points, row: &R) -> usize
    ensures part { result ≡ part_of points.now (R.value row.now) }
    ensures within { result ≤ length points.now }
{
    let count = points.len();
    for i in 0..count {
        if is_row_below(point_at(points, i), row) {
            return i;
        }
    }
    count
}

// Whether the row stands below the point.
#[tactic(auto, unfolding(willow_area::specs::Cuts::is_below))]
fn is_row_below<R: Row>(at: &CutAt, row: &R) -> bool
    ensures { result ≡ is_row_below at.now (R.value row.now) }
{
    let entry = row.entry();
    match at {
        CutAt::Subspace(key) => entry.subspace.cmp(key).is_lt(),
        CutAt::Path(path) => entry.path.cmp(path).is_lt(),
        CutAt::Time(time) => entry.timestamp < *time,
    }
}

// The greatest of the sizes.
fn greatest(sizes: &[u32]) -> u32
    ensures { result ≡ greatest sizes.now }
{
    let mut most = 0;
    for size in sizes {
        most = greater(most, *size);
    }
    most
}

// The greater of two numbers.
fn greater(one: u32, other: u32) -> u32
    ensures { result ≡ max one other }
{
    if one < other { other } else { one }
}
