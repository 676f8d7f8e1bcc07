//! The choice between the rows of a box and a cut of it into up to four parts.

ghost use Rattle.std.specs.Prelude.{◌≡◌, ◌+◌, ◌*◌, ◌/◌, ◌<◌, ◌≤◌, ◌^◌, [], ◌∷◌, ◌++◌, length, map, take, true, false, Some, slice_get, option_map, IfOk, OnOk};
ghost use Rattle.std.specs.List.{AllByRecursion};
ghost use Rattle.std.specs.List.Sorted.{IsStrictlySortedBy};
ghost use Rattle.std.specs.Option.{option_to_list};
ghost use Rattle.std.specs.Ordering.{nat_cmp};
ghost use Rattle.willow_area.specs.declared.cut.CutAt.TheVariants as cuts;
ghost use Rattle.willow_entry.specs.Entry.{bytes_cmp};
ghost use Rattle.willow_entry.specs.Row.{inner_place_cmp};
ghost use Rattle.block_store.specs.BoxKinds.{IsOfOneNamespace};
ghost use Rattle.block_store.specs.InBox.{is_in, rows_in};
ghost use Rattle.block_store.specs.Positions.{positions};
ghost use Rattle.sync_msg.specs.CutPoints.{dimension};
ghost use Rattle.range_split.specs.Points.{cuts_at};
ghost use Rattle.range_split.specs.Quarters.{cuts_of, distinct_above, even_choice, even_points, have_subspaces, path_points, next_low, subspace_points, time_points};

use crate::among::{least_among, row_among, times_among};
use crate::choice::ENTRIES_MAX;
use crate::least::is_above;
use crate::load::load;
use crate::rows::known_rising;
use block_store::Snapshot;
use std::alloc::Global;
use sync_msg::{MAX_POINTS, Points};
use willow_area::{Box3, CutAt};
use willow_entry::Row;
use willow_path::{NoMemory, UserKey};

/// The points at which a box is cut into up to four parts, by the rows of the snapshot that it includes; None exactly
/// where these are at most `ENTRIES_MAX`. The rows of the snapshot are of one namespace.
///
/// Let the values of the rows in a dimension rise. The points of the dimension are the distinct values at the quarters
/// that are above the least; where none is, the least value that is above it. Their load is the greatest number of rows in
/// one part. The base is subspaces, where the rows have two, else paths. The points are those of times, where twice their
/// load is less than that of the base, else those of the base.
pub fn choose_parts<R: Row>(
    alloc: Global,
    snapshot: &Snapshot<R>,
    area: &Box3,
) -> Result<Option<Points>, NoMemory>
    requires one { IsOfOneNamespace (map R.value snapshot.now) }
    ensures chosen { IfOk result (λ chosen. chosen ≡ option_map cuts_at (even_choice (rows_in area.now (map R.value snapshot.now)))) }
{
    let found = snapshot.positions_in(area)?;
    choose_parts_among(alloc, snapshot, area, &found)
}

/// The same, over the positions of the rows that the box includes, which the caller has found. No other row is looked at.
pub fn choose_parts_among<R: Row>(
    alloc: Global,
    snapshot: &Snapshot<R>,
    area: &Box3,
    found: &[u32],
) -> Result<Option<Points>, NoMemory>
    requires one { IsOfOneNamespace (map R.value snapshot.now) }
    requires found { found.now ≡ positions (is_in area.now) (map R.value snapshot.now) }
    ensures chosen { IfOk result (λ chosen. chosen ≡ option_map cuts_at (even_choice (rows_in area.now (map R.value snapshot.now)))) }
{
    if found.len() <= ENTRIES_MAX as usize {
        return Ok(None);
    }
    known_rising(snapshot);
    let points = even_points(alloc, snapshot, area, found)?;
    Ok(Some(points))
}

// The points for many rows.
fn even_points<R: Row>(
    alloc: Global,
    snapshot: &Snapshot<R>,
    area: &Box3,
    found: &[u32],
) -> Result<Points, NoMemory>
    requires found { found.now ≡ positions (is_in area.now) (map R.value snapshot.now) }
    requires many { ENTRIES_MAX < length found.now }
    requires rise { IsStrictlySortedBy inner_place_cmp (map R.value snapshot.now) }
    ensures { IfOk result (λ points. points ≡ cuts_at (even_points (rows_in area.now (map R.value snapshot.now)))) }
{
    let first = row_among(snapshot, area, found, 0);
    let last = row_among(snapshot, area, found, found.len() - 1);
    if last.entry().subspace == first.entry().subspace {
        path_points(alloc, snapshot, area, found)
    } else {
        several(alloc, snapshot, area, found)
    }
}

// The row before which so many quarters of the rows stand, rounded down.
fn quarter<'a, R: Row>(
    snapshot: &'a Snapshot<R>,
    area: &Box3,
    found: &[u32],
    quarters: usize,
) -> &'a R
    requires found { found.now ≡ positions (is_in area.now) (map R.value snapshot.now) }
    requires many { ENTRIES_MAX < length found.now }
    requires few { quarters ≤ 3 }
    ensures { slice_get (rows_in area.now (map R.value snapshot.now)) ((quarters * length (rows_in area.now (map R.value snapshot.now))) / 4) ≡ Some (R.value result.now) }
{
    row_among(snapshot, area, found, quarters * found.len() / 4)
}

// The points of paths, where the rows have one subspace: they are those of the rows at the quarters, and no points of
// times divide the rows more evenly.
fn path_points<R: Row>(
    alloc: Global,
    snapshot: &Snapshot<R>,
    area: &Box3,
    found: &[u32],
) -> Result<Points, NoMemory>
    requires found { found.now ≡ positions (is_in area.now) (map R.value snapshot.now) }
    requires many { ENTRIES_MAX < length found.now }
    requires rise { IsStrictlySortedBy inner_place_cmp (map R.value snapshot.now) }
    requires one { have_subspaces (rows_in area.now (map R.value snapshot.now)) ≡ false }
    ensures { IfOk result (λ points. points ≡ cuts_at (even_points (rows_in area.now (map R.value snapshot.now)))) }
{
    let mut points = Points::new(alloc);
    points.push(path_of(quarter(snapshot, area, found, 1))?)?;
    points.push(path_of(quarter(snapshot, area, found, 2))?)?;
    points.push(path_of(quarter(snapshot, area, found, 3))?)?;
    Ok(points)
}

// The cut at the row's path.
fn path_of<R: Row>(row: &R) -> Result<CutAt, NoMemory>
    ensures { IfOk result (λ at. at ≡ cuts.Path (R.value row.now).entry.path) }
{
    Ok(CutAt::Path(row.entry().path.copy()?))
}

// The points where the rows have several subspaces. No points of times have a load below a quarter of the rows, so these
// are looked at only where the subspaces have one above half of them.
fn several<R: Row>(
    alloc: Global,
    snapshot: &Snapshot<R>,
    area: &Box3,
    found: &[u32],
) -> Result<Points, NoMemory>
    requires found { found.now ≡ positions (is_in area.now) (map R.value snapshot.now) }
    requires many { ENTRIES_MAX < length found.now }
    requires rise { IsStrictlySortedBy inner_place_cmp (map R.value snapshot.now) }
    requires several { have_subspaces (rows_in area.now (map R.value snapshot.now)) ≡ true }
    ensures { IfOk result (λ points. points ≡ cuts_at (even_points (rows_in area.now (map R.value snapshot.now)))) }
{
    let base = subspace_points(alloc, snapshot, area, found)?;
    let most = load(alloc, snapshot, area, found, &base)?;
    if most as usize <= found.len() / 2 {
        return Ok(base);
    }
    let times = time_points(alloc, snapshot, area, found)?;
    let least = load(alloc, snapshot, area, found, &times)?;
    if 2 * u64::from(least) < u64::from(most) {
        Ok(times)
    } else {
        Ok(base)
    }
}

// The points of subspaces.
fn subspace_points<R: Row>(
    alloc: Global,
    snapshot: &Snapshot<R>,
    area: &Box3,
    found: &[u32],
) -> Result<Points, NoMemory>
    requires found { found.now ≡ positions (is_in area.now) (map R.value snapshot.now) }
    requires many { ENTRIES_MAX < length found.now }
    requires rise { IsStrictlySortedBy inner_place_cmp (map R.value snapshot.now) }
    ensures { IfOk result (λ points. points ≡ cuts_at (subspace_points (rows_in area.now (map R.value snapshot.now)))) }
{
    let low = quarter(snapshot, area, found, 0).entry().subspace;
    let mut points = Points::new(alloc);
    let one = push_key(
        &mut points,
        low,
        quarter(snapshot, area, found, 1).entry().subspace,
    )?;
    let two = push_key(
        &mut points,
        one,
        quarter(snapshot, area, found, 2).entry().subspace,
    )?;
    let _three = push_key(
        &mut points,
        two,
        quarter(snapshot, area, found, 3).entry().subspace,
    )?;
    if points.len() > 0 {
        return Ok(points);
    }
    key_points(alloc, least_among(snapshot, area, found, &low))
}

// The point of a subspace, if there is one.
fn key_points(alloc: Global, key: Option<UserKey>) -> Result<Points, NoMemory>
    ensures { IfOk result (λ points. points ≡ map cuts.Subspace (option_to_list key)) }
{
    let mut points = Points::new(alloc);
    match key {
        Some(key) => {
            points.push(CutAt::Subspace(key))?;
            Ok(points)
        }
        None => Ok(points),
    }
}

// Adds the key where it is above the low one, and tells the one that is compared with next.
fn push_key(points: &mut Points, low: UserKey, key: UserKey) -> Result<UserKey, NoMemory>
    requires few { length points.old < MAX_POINTS }
    requires keys { AllByRecursion (λ at. dimension at ≡ 0) points.old }
    ensures points { OnOk result (points.new ≡ points.old ++ map cuts.Subspace (distinct_above bytes_cmp low (key ∷ []))) }
    ensures keys { OnOk result (AllByRecursion (λ at. dimension at ≡ 0) points.new) }
    ensures more { OnOk result (length points.new ≤ length points.old + 1) }
    ensures next { IfOk result (λ next. next ≡ next_low bytes_cmp low key) }
{
    if is_above(&key, &low) {
        points.push(CutAt::Subspace(key))?;
        Ok(key)
    } else {
        Ok(low)
    }
}

// The points of times.
fn time_points<R: Row>(
    alloc: Global,
    snapshot: &Snapshot<R>,
    area: &Box3,
    found: &[u32],
) -> Result<Points, NoMemory>
    requires found { found.now ≡ positions (is_in area.now) (map R.value snapshot.now) }
    ensures { IfOk result (λ points. points ≡ cuts_at (time_points (rows_in area.now (map R.value snapshot.now)))) }
{
    let mut times = times_among(alloc, snapshot, area, found)?;
    times.sort_unstable();
    points_of(alloc, &times)
}

// The points of times that rise.
fn points_of(alloc: Global, times: &[u64]) -> Result<Points, NoMemory>
    requires few { length times.now ≤ 2 ^ 32 }
    ensures { IfOk result (λ points. points ≡ map cuts.Time (cuts_of nat_cmp times.now)) }
{
    let mut points = Points::new(alloc);
    let count = times.len();
    if count == 0 {
        return Ok(points);
    }
    let low = times[0];
    let one = push_time(&mut points, low, times[count / 4])?;
    let two = push_time(&mut points, one, times[2 * count / 4])?;
    let _three = push_time(&mut points, two, times[3 * count / 4])?;
    if points.len() > 0 {
        return Ok(points);
    }
    time_point(alloc, first_above(times, low))
}

// The point of a time, if there is one.
fn time_point(alloc: Global, time: Option<u64>) -> Result<Points, NoMemory>
    ensures { IfOk result (λ points. points ≡ map cuts.Time (option_to_list time)) }
{
    let mut points = Points::new(alloc);
    match time {
        Some(time) => {
            points.push(CutAt::Time(time))?;
            Ok(points)
        }
        None => Ok(points),
    }
}

// Adds the time where it is above the low one, and tells the one that is compared with next.
fn push_time(points: &mut Points, low: u64, time: u64) -> Result<u64, NoMemory>
    requires few { length points.old < MAX_POINTS }
    requires times { AllByRecursion (λ at. dimension at ≡ 2) points.old }
    ensures points { OnOk result (points.new ≡ points.old ++ map cuts.Time (distinct_above nat_cmp low (time ∷ []))) }
    ensures times { OnOk result (AllByRecursion (λ at. dimension at ≡ 2) points.new) }
    ensures more { OnOk result (length points.new ≤ length points.old + 1) }
    ensures next { IfOk result (λ next. next ≡ next_low nat_cmp low time) }
{
    if time > low {
        points.push(CutAt::Time(time))?;
        Ok(time)
    } else {
        Ok(low)
    }
}

// The first time that is above the low one.
fn first_above(times: &[u64], low: u64) -> Option<u64>
    ensures { option_to_list result ≡ take 1 (distinct_above nat_cmp low times.now) }
{
    for time in times {
        if *time > low {
            return Some(*time);
        }
    }
    None
}
