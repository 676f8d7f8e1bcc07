//! The rows that a box includes.

ghost use Rattle.std.specs.Prelude.{◌≡◌, [], ◌+◌, ◌⊎◌, ◌^◌, ◌<◌, ◌≤◌, cond, length, map, take, slice_get, Some, IfSome, IsTrue, MatchOption};
ghost use Rattle.std.specs.Option.{option_map};
ghost use Rattle.willow_area.specs.Times.{ends_by, in_times};
ghost use Rattle.willow_entry.specs.Row.{IsRising};
ghost use Rattle.block_store.specs.Blocks.{block_rows, block_values, index_of};
ghost use Rattle.block_store.specs.BoxKinds.{HasAllPaths};
ghost use Rattle.block_store.specs.BoxRuns.{IsRunOf};
ghost use Rattle.block_store.specs.Positions.{positions};
ghost use Rattle.block_store.specs.Held.{values_of};
ghost use Rattle.block_store.specs.InBox.{is_in, rows_in};

use crate::block::Block;
use crate::reading::listing::Listing;
use crate::reading::runs::{Run, has_all_paths, run_of};
use std::sync::Arc;
use willow_area::{Box3, TimeRange};
use willow_entry::Row;

// Whether the box includes the row.
pub(crate) fn is_in<R: Row>(row: &R, area: &Box3) -> bool
    ensures { result ≡ is_in area.now (R.value row.now) }
{
    let entry = row.entry();
    area.includes(&entry.subspace, &entry.path, entry.timestamp)
}

// 1 for a row that passes.
pub(crate) fn one_if(passes: bool) -> u32
    ensures value { result ≡ cond passes 1 0 }
    ensures small { result ≤ 1 }
{
    if passes { 1 } else { 0 }
}

// The number of rows that the box includes, by a test of each.
fn count_in_rows<R: Row>(rows: &[Arc<R>], area: &Box3) -> u32
    requires { length rows.now < 2 ^ 32 }
    ensures { result ≡ length (rows_in area.now (values_of R.value rows.now)) }
{
    let mut count = 0;
    for at in 0..rows.len() {
        count += one_if(is_in(&*rows[at], area));
    }
    count
}

// The position of the n-th row, counted from 0, that the box includes, by a test of each.
fn nth_in_rows<R: Row>(rows: &[Arc<R>], area: &Box3, n: u32) -> Option<u32>
    requires { length rows.now < 2 ^ 32 }
    ensures nth { result ≡ slice_get (positions (is_in area.now) (values_of R.value rows.now)) n }
    ensures within { IfSome result (λ at. at < length rows.now) }
{
    let mut left = n;
    for at in 0..rows.len() {
        let one = one_if(is_in(&*rows[at], area));
        if one > left {
            return Some(at as u32);
        }
        left -= one;
    }
    None
}

// Whether both rows are in the box, in one namespace, and so is each row of that namespace that stands between them,
// if it was written within the times.
fn are_ends<R: Row>(first: &R, last: &R, area: &Box3) -> bool
    ensures namespace { IsTrue result → (R.value first.now).entry.namespace ≡ (R.value last.now).entry.namespace }
    ensures first { IsTrue result → IsTrue (is_in area.now (R.value first.now)) }
    ensures last { IsTrue result → IsTrue (is_in area.now (R.value last.now)) }
    ensures paths { IsTrue result → ((R.value first.now).entry.subspace ≡ (R.value last.now).entry.subspace) ⊎ HasAllPaths area.now }
{
    let (e, f) = (first.entry(), last.entry());
    e.namespace == f.namespace
        && (e.subspace == f.subspace || has_all_paths(area))
        && is_in(first, area)
        && is_in(last, area)
}

// Whether the rows of the block were all written within the times of the box.
fn has_times_of<R: Row>(block: &Block<R>, area: &Box3) -> bool
    ensures first { IsTrue result → IsTrue (in_times area.now.times block.now.earliest) }
    ensures last { IsTrue result → IsTrue (in_times area.now.times block.now.latest) }
{
    area.times().includes(block.earliest) && area.times().includes(block.latest)
}

// Whether the times of a range end at a time, or before it.
fn end_by(times: &TimeRange, time: u64) -> bool
    ensures { result ≡ ends_by times.now.end time }
{
    match times.end() {
        Some(end) => end <= time,
        None => false,
    }
}

// Whether none of the rows of the block was written within the times of the box, so that none is read to tell it.
pub(crate) fn is_apart<R: Row>(block: &Block<R>, area: &Box3) -> bool
    ensures { IsTrue result → rows_in area.now (values_of R.value block.now.rows.items) ≡ [] }
{
    let times = area.times();
    if block.latest < times.start() {
        return true;
    }
    end_by(times, block.earliest)
}

// Whether all rows of the block are in the box, as far as its first and last row and its times tell.
pub(crate) fn lies_in<R: Row>(block: &Block<R>, area: &Box3) -> bool
    requires { IsRising (values_of R.value block.now.rows.items) }
    ensures { IsTrue result → rows_in area.now (values_of R.value block.now.rows.items) ≡ values_of R.value block.now.rows.items }
{
    let first = &*block.rows[0];
    let last = &*block.rows[block.rows.len() - 1];
    has_times_of(block, area) && are_ends(first, last, area)
}

// The number of rows of the block that the box includes.
fn count_in_block<R: Row>(block: &Block<R>, area: &Box3) -> u32
    requires { IsRising (values_of R.value block.now.rows.items) }
    ensures { result ≡ length (rows_in area.now (values_of R.value block.now.rows.items)) }
{
    if is_apart(block, area) {
        0
    } else if lies_in(block, area) {
        block.rows.len() as u32
    } else {
        count_in_rows(&block.rows, area)
    }
}

// The number of the first block behind the run.
pub(crate) fn block_behind<R: Row>(listing: &Listing<R>, area: &Box3, run: &Run) -> usize
    requires { IsRunOf R.value area.now listing.now.pieces.items run.now }
    ensures within { result ≤ length listing.now.pieces.items }
    ensures next { result ≤ run.now.to.block + 1 }
    ensures behind { index_of listing.now.pieces.items run.now.to ≤ length (block_rows (take result listing.now.pieces.items)) }
{
    let last = run.to.block;
    if last < listing.pieces.len() {
        last + 1
    } else {
        listing.pieces.len()
    }
}

// The number of rows that the box includes, block by block.
fn count_by_blocks<R: Row>(listing: &Listing<R>, area: &Box3, run: &Run) -> u32
    requires { IsRunOf R.value area.now listing.now.pieces.items run.now }
    ensures { result ≡ length (rows_in area.now (block_values R.value listing.now.pieces.items)) }
{
    let mut count = 0;
    for i in run.from.block..block_behind(listing, area, run) {
        count += count_in_block(listing.block(i), area);
    }
    count
}

// The number of rows that the box includes.
pub(crate) fn count_in<R: Row>(listing: &Listing<R>, area: &Box3) -> u32
    ensures { result ≡ length (rows_in area.now (block_values R.value listing.now.pieces.items)) }
{
    let run = run_of(listing, area);
    if run.exact {
        listing.position(run.to) - listing.position(run.from)
    } else {
        count_by_blocks(listing, area, &run)
    }
}

// The n-th position, counted from 0, from the first on and before the second.
fn nth_between(low: u32, high: u32, n: u32) -> Option<u32>
    requires { low ≤ high }
    ensures { MatchOption result (high ≤ low + n) (λ at. (at ≡ low + n) × (at < high)) }
{
    if n < high - low { Some(low + n) } else { None }
}

// The position of the n-th row, counted from 0, that the box includes of a block, where the block starts there.
fn nth_in_block<R: Row>(start: u32, rows: &[Arc<R>], area: &Box3, n: u32) -> Option<u32>
    requires { start + length rows.now < 2 ^ 32 }
    ensures { result ≡ option_map (λ at. start + at) (slice_get (positions (is_in area.now) (values_of R.value rows.now)) n) }
{
    match nth_in_rows(rows, area, n) {
        Some(at) => Some(start + at),
        None => None,
    }
}

// The position of the n-th row, counted from 0, that the box includes, block by block.
fn nth_by_blocks<R: Row>(listing: &Listing<R>, area: &Box3, run: &Run, n: u32) -> Option<u32>
    requires { IsRunOf R.value area.now listing.now.pieces.items run.now }
    ensures { result ≡ slice_get (positions (is_in area.now) (block_values R.value listing.now.pieces.items)) n }
{
    let mut left = n;
    for i in run.from.block..block_behind(listing, area, run) {
        let block = listing.block(i);
        let count = count_in_block(block, area);
        if left < count {
            return nth_in_block(listing.start(i), &block.rows, area, left);
        }
        left -= count;
    }
    None
}

// The position of the n-th row, counted from 0, that the box includes.
pub(crate) fn nth_in<R: Row>(listing: &Listing<R>, area: &Box3, n: u32) -> Option<u32>
    ensures { result ≡ slice_get (positions (is_in area.now) (block_values R.value listing.now.pieces.items)) n }
{
    let run = run_of(listing, area);
    if run.exact {
        nth_between(listing.position(run.from), listing.position(run.to), n)
    } else {
        nth_by_blocks(listing, area, &run, n)
    }
}
