//! Where the rows of a box stand among rows in blocks.

ghost use Rattle.std.specs.Prelude.{◌≡◌, ◌↔◌, ℕ, Some, ◌+◌, ◌-◌, ◌<◌, ◌≤◌, List, true, false, length, IsTrue, IfSome, IfNone};
ghost use Rattle.std.specs.List.{All, AllWithin};
ghost use Rattle.std.specs.Option.{option_copied};
ghost use Rattle.willow_path.specs.Key.{IsKey};
ghost use Rattle.willow_path.specs.Path.{part_cmp};
ghost use Rattle.willow_area.specs.Boxes.{IsBox};
ghost use Rattle.willow_area.specs.Range.{in_range};
ghost use Rattle.willow_entry.specs.Row.{RowValue};
ghost use Rattle.block_store.specs.Blocks.{block_rows, block_values, index_of, IsSpot};
ghost use Rattle.block_store.specs.BoxKinds.{HasAllPaths, HasAllTimes, IsOfOneNamespace, IsOneRun, namespace_at};
ghost use Rattle.block_store.specs.BoxRuns.{IsRunOf};
ghost use Rattle.block_store.specs.Ends.{PassUpTo, is_before_key, is_before_path};

use crate::looking::ends::{BeforeKey, BeforePath};
use crate::looking::search::partition_point;
use crate::looking::spot::Spot;
use crate::reading::listing::Listing;
use willow_area::Box3;
use willow_entry::Row;
use willow_path::{Path, UserKey};

// A run of rows: from a spot on, and before another. It is exact for a box where each of its rows is in the box.
#[derive(Clone, Copy)]
pub(crate) struct Run {
    pub(crate) from: Spot,
    pub(crate) to: Spot,
    pub(crate) exact: bool,
}

// Whether no time is outside the box.
pub(crate) fn has_all_times(area: &Box3) -> bool
    ensures times { IsTrue result ↔ HasAllTimes area.now }
    ensures rising { IsBox area.now }
{
    let times = area.times();
    times.start() == 0 && times.end().is_none()
}

// Whether no path is outside the box.
pub(crate) fn has_all_paths(area: &Box3) -> bool
    ensures { IsTrue result ↔ HasAllPaths area.now }
{
    area.path_start().count() == 0 && area.path_end().is_none()
}

// Whether two rows have one namespace; None only where no row stands at one of the positions.
fn share_namespace<R: Row>(listing: &Listing<R>, first: u32, last: u32) -> Option<bool>
    ensures same { IfSome result (λ same. (d : RowValue) → IsTrue same ↔ (namespace_at (block_values R.value listing.now.pieces.items) first d ≡ namespace_at (block_values R.value listing.now.pieces.items) last d)) }
    ensures none { IfNone result (first < length (block_rows listing.now.pieces.items) → last < length (block_rows listing.now.pieces.items) → ⊥) }
{
    let first = listing.get(first)?;
    let last = listing.get(last)?;
    Some(first.entry().namespace == last.entry().namespace)
}

// Whether all rows stand in one namespace: then the first and the last do.
fn is_of_one_namespace<R: Row>(listing: &Listing<R>) -> bool
    ensures { IsTrue result ↔ IsOfOneNamespace (block_values R.value listing.now.pieces.items) }
{
    let count = listing.len();
    if count == 0 {
        return true;
    }
    share_namespace(listing, 0, count - 1).unwrap_or(true)
}

// Where the rows end whose subspace is below the end.
fn key_spot<R: Row>(listing: &Listing<R>, end: Option<&UserKey>) -> Spot
    requires { IsOfOneNamespace (block_values R.value listing.now.pieces.items) }
    ensures spot { IsSpot listing.now.pieces.items result }
    ensures point { PassUpTo (is_before_key (option_copied end.entry)) (block_values R.value listing.now.pieces.items) (index_of listing.now.pieces.items result) }
{
    partition_point(&listing.pieces, &BeforeKey { end })
}

// Where the rows end whose subspace is below the key, or is the key with a path below the end.
fn path_spot<R: Row>(listing: &Listing<R>, key: &UserKey, end: Option<&Path>) -> Spot
    requires { IsOfOneNamespace (block_values R.value listing.now.pieces.items) }
    ensures spot { IsSpot listing.now.pieces.items result }
    ensures point { PassUpTo (is_before_path key.now (option_copied end.entry)) (block_values R.value listing.now.pieces.items) (index_of listing.now.pieces.items result) }
{
    partition_point(&listing.pieces, &BeforePath { key, end })
}

// The one subspace of the rows from a position on and before another; None where there are none or several.
fn one_subspace<R: Row>(listing: &Listing<R>, low: u32, high: u32) -> Option<&UserKey>
    requires one { IsOfOneNamespace (block_values R.value listing.now.pieces.items) }
    requires within { high ≤ length (block_rows listing.now.pieces.items) }
    ensures some { IfSome result (λ key. low < high) }
    ensures one { IfSome result (λ key. AllWithin (λ r. key.now ≡ r.entry.subspace) (block_values R.value listing.now.pieces.items) low high) }
    ensures several { IfNone result (low < high → (key : List ℕ) → AllWithin (λ r. IsKey r.entry.subspace → key ≡ r.entry.subspace) (block_values R.value listing.now.pieces.items) low high → ⊥) }
{
    if low >= high {
        return None;
    }
    let first = listing.get(low)?;
    let last = listing.get(high - 1)?;
    let key = &first.entry().subspace;
    if *key == last.entry().subspace {
        Some(key)
    } else {
        None
    }
}

// The run of all rows.
fn all_rows<R: Row>(listing: &Listing<R>, area: &Box3) -> Run
    ensures { IsRunOf R.value area.now listing.now.pieces.items result }
{
    Run {
        from: Spot { block: 0, row: 0 },
        to: Spot {
            block: listing.pieces.len(),
            row: 0,
        },
        exact: false,
    }
}

// The run of the rows of a box, where these have one subspace.
fn path_run<R: Row>(listing: &Listing<R>, area: &Box3, key: &UserKey) -> Run
    requires one { IsOfOneNamespace (block_values R.value listing.now.pieces.items) }
    requires inside { in_range part_cmp area.now.keys key.now ≡ true }
    requires only { All (λ r. in_range part_cmp area.now.keys r.entry.subspace ≡ true → key.now ≡ r.entry.subspace) (block_values R.value listing.now.pieces.items) }
    ensures run { IsRunOf R.value area.now listing.now.pieces.items result }
    ensures exact { IsTrue result.exact ↔ HasAllTimes area.now }
{
    let exact = has_all_times(area);
    let from = path_spot(listing, key, Some(area.path_start()));
    let to = path_spot(listing, key, area.path_end());
    Run { from, to, exact }
}

// Where the rows stand whose subspaces the box includes: from a spot on, and before another.
fn key_spots<R: Row>(listing: &Listing<R>, area: &Box3) -> (Spot, Spot)
    requires { IsOfOneNamespace (block_values R.value listing.now.pieces.items) }
    ensures from { IsSpot listing.now.pieces.items result.0 }
    ensures to { IsSpot listing.now.pieces.items result.1 }
    ensures low { PassUpTo (is_before_key (Some area.now.keys.start)) (block_values R.value listing.now.pieces.items) (index_of listing.now.pieces.items result.0) }
    ensures high { PassUpTo (is_before_key area.now.keys.end) (block_values R.value listing.now.pieces.items) (index_of listing.now.pieces.items result.1) }
{
    let from = key_spot(listing, Some(area.key_start()));
    let to = key_spot(listing, area.key_end());
    (from, to)
}

// Whether neither a time nor a path is outside the box.
fn has_all_of_keys(area: &Box3) -> bool
    ensures whole { IsTrue result ↔ (HasAllTimes area.now × HasAllPaths area.now) }
    ensures rising { IsBox area.now }
{
    has_all_times(area) && has_all_paths(area)
}

// The run between the spots of the box's keys, where the rows between have no one subspace.
fn several_run<R: Row>(listing: &Listing<R>, area: &Box3, from: Spot, to: Spot, empty: bool) -> Run
    requires from { IsSpot listing.now.pieces.items from }
    requires to { IsSpot listing.now.pieces.items to }
    requires low { PassUpTo (is_before_key (Some area.now.keys.start)) (block_values R.value listing.now.pieces.items) (index_of listing.now.pieces.items from) }
    requires high { PassUpTo (is_before_key area.now.keys.end) (block_values R.value listing.now.pieces.items) (index_of listing.now.pieces.items to) }
    requires none { IsTrue empty → index_of listing.now.pieces.items to ≤ index_of listing.now.pieces.items from }
    ensures run { IsRunOf R.value area.now listing.now.pieces.items result }
    ensures empty { IsTrue empty → IsTrue result.exact }
    ensures whole { HasAllTimes area.now → HasAllPaths area.now → IsTrue result.exact }
{
    let exact = has_all_of_keys(area) || empty;
    Run { from, to, exact }
}

// The least key of the box.
fn first_key(area: &Box3) -> &UserKey
    ensures first { result.now ≡ area.now.keys.start }
    ensures key { IsKey area.now.keys.start }
{
    let key = area.key_start();
    let _bytes = key.to_bytes();
    key
}

// The run of the rows of a box among rows of one namespace.
fn key_run<R: Row>(listing: &Listing<R>, area: &Box3) -> Run
    requires { IsOfOneNamespace (block_values R.value listing.now.pieces.items) }
    ensures run { IsRunOf R.value area.now listing.now.pieces.items result }
    ensures one { IsOneRun area.now → IsTrue result.exact }
{
    let _first = first_key(area);
    let (from, to) = key_spots(listing, area);
    let (low, high) = (listing.position(from), listing.position(to));
    match one_subspace(listing, low, high) {
        Some(key) => path_run(listing, area, key),
        None => several_run(listing, area, from, to, low >= high),
    }
}

// The run of the rows of a box. It is exact for a box of all times with one subspace or all paths, where the rows are
// of one namespace.
pub(crate) fn run_of<R: Row>(listing: &Listing<R>, area: &Box3) -> Run
    ensures run { IsRunOf R.value area.now listing.now.pieces.items result }
    ensures one { IsOneRun area.now → IsOfOneNamespace (block_values R.value listing.now.pieces.items) → IsTrue result.exact }
{
    if is_of_one_namespace(listing) {
        key_run(listing, area)
    } else {
        all_rows(listing, area)
    }
}
