//! Rows by the time at which they were written. Beside blocks, whose rows stand by place, an order by time is a list of
//! positions. What a box with times includes is told along the one or the other, whichever has fewer rows to look at.

ghost use Rattle.std.specs.Prelude.{◌≡◌, ◌+◌, ◌^◌, ◌<◌, ◌≤◌, [], ◌∷◌, true, false, length, map, IfOk, IfSome, nat_lt};
ghost use Rattle.std.specs.List.{range_with_len};
ghost use Rattle.std.specs.List.Sorted.{IsNonDecreasingBy, IsPartitionPoint};
ghost use Rattle.lane_sum.specs.Totals.{total_by};
ghost use Rattle.willow_entry.specs.Row.{IsRising};
ghost use Rattle.block_store.specs.Blocks.{block_rows, block_values};
ghost use Rattle.block_store.specs.BoxKinds.{HasAllTimes};
ghost use Rattle.block_store.specs.BoxRuns.{IsRunOf};
ghost use Rattle.block_store.specs.ByTime.{IsTimeOrder, found_at, passes_at, time_at, written_in};
ghost use Rattle.block_store.specs.BytesAt.{row_bytes_at};
ghost use Rattle.block_store.specs.Held.{values_of};
ghost use Rattle.block_store.specs.InBox.{is_in};

use crate::block::Block;
use crate::changing::offer::note;
use crate::reading::boxes::{block_behind, is_apart, is_in, lies_in, one_if};
use crate::reading::fingerprint::leaf_if_in;
use crate::reading::listing::Listing;
use crate::reading::runs::{Run, has_all_times, run_of};
use lane_sum::Lanes;
use std::alloc::Global;
use std::sync::ledger::Ledger;
use step_count::Steps;
use willow_area::Box3;
use willow_entry::Row;
use willow_path::NoMemory;

// The time at which the row at the position was written; 0 where none stands there.
fn time_at<R: Row>(listing: &Listing<R>, at: u32) -> u64
    ensures { result ≡ time_at (block_values R.value listing.now.pieces.items) at }
{
    match listing.get(at) {
        Some(row) => row.entry().timestamp,
        None => 0,
    }
}

// The time and the position of each row, by rising position.
fn stamps_of<R: Row>(alloc: Global, listing: &Listing<R>) -> Result<Vec<(u64, u32)>, NoMemory>
    ensures { IfOk result (λ stamps. stamps.items ≡ map (λ at. (time_at (block_values R.value listing.now.pieces.items) at, at)) (range_with_len 0 (length (block_rows listing.now.pieces.items)))) }
{
    let mut stamps = Vec::with_capacity(alloc, listing.len() as usize)?;
    for at in 0..listing.len() {
        stamps.push((time_at(listing, at), at))?;
    }
    Ok(stamps)
}

// The positions of these.
fn positions_of(alloc: Global, stamps: &[(u64, u32)]) -> Result<Vec<u32>, NoMemory>
    ensures { IfOk result (λ positions. positions.items ≡ map (λ stamp. stamp.1) stamps.now) }
{
    let mut positions = Vec::with_capacity(alloc, stamps.len())?;
    for i in 0..stamps.len() {
        positions.push(stamps[i].1)?;
    }
    Ok(positions)
}

// The order of all rows by time.
pub(crate) fn order_of<R: Row>(alloc: Global, listing: &Listing<R>) -> Result<Vec<u32>, NoMemory>
    ensures { IfOk result (λ order. IsTimeOrder order.items (block_values R.value listing.now.pieces.items)) }
{
    let mut stamps = stamps_of(alloc, listing)?;
    stamps.sort_unstable();
    positions_of(alloc, &stamps)
}

// How many of positions by rising time are of rows that were written before the time.
fn written_before<R: Row>(listing: &Listing<R>, ats: &[u32], time: u64) -> usize
    requires { IsNonDecreasingBy (time_at (block_values R.value listing.now.pieces.items)) ats.now }
    ensures point { IsPartitionPoint (λ at. nat_lt (time_at (block_values R.value listing.now.pieces.items) at) time ≡ true) (λ at. nat_lt (time_at (block_values R.value listing.now.pieces.items) at) time ≡ false) ats.now result }
    ensures bound { result ≤ length ats.now }
{
    ats.partition_point(|at| time_at(listing, *at) < time)
}

// Of positions by rising time those whose rows were written within the times of the box.
fn written_in<'a, R: Row>(listing: &Listing<R>, ats: &'a [u32], area: &Box3) -> &'a [u32]
    requires { IsNonDecreasingBy (time_at (block_values R.value listing.now.pieces.items)) ats.now }
    ensures { result.now ≡ written_in area.now (block_values R.value listing.now.pieces.items) ats.now }
{
    let times = area.times();
    let behind = &ats[written_before(listing, ats, times.start())..];
    match times.end() {
        Some(end) => &behind[..written_before(listing, behind, end)],
        None => behind,
    }
}

// How many looks tell which rows of a block the box includes, along a run: one at the block, and one at each row where the
// block lies neither outside the times of the box nor in the box.
fn looks_at<R: Row>(block: &Block<R>, area: &Box3) -> usize
    requires { IsRising (values_of R.value block.now.rows.items) }
    ensures { result ≤ 65 }
{
    if is_apart(block, area) || lies_in(block, area) {
        1
    } else {
        1 + block.rows.len()
    }
}

// Whether at most so many looks tell which rows the box includes, along their run. No block is looked at behind these.
fn is_short<R: Row>(listing: &Listing<R>, area: &Box3, run: &Run, most: usize) -> bool
    requires run { IsRunOf R.value area.now listing.now.pieces.items run.now }
    requires few { most < 2 ^ 32 }
{
    let mut looks = 0;
    for i in run.from.block..block_behind(listing, area, run) {
        looks += looks_at(listing.block(i), area);
        if looks > most {
            return false;
        }
    }
    true
}

// The same of a run that need not be known. An exact run is told without a look.
fn is_short_by_place<R: Row>(listing: &Listing<R>, area: &Box3, most: usize) -> bool
    requires { most < 2 ^ 32 }
{
    let run = run_of(listing, area);
    run.exact || is_short(listing, area, &run, most)
}

// The positions of the rows that were written within the times of the box, by rising time, where these are fewer than
// the looks that it takes by place. None for a box of all times.
pub(crate) fn fewer_by_time<'a, R: Row>(
    listing: &Listing<R>,
    order: &'a [u32],
    area: &Box3,
) -> Option<&'a [u32]>
    requires { IsTimeOrder order.now (block_values R.value listing.now.pieces.items) }
    ensures within { IfSome result (λ within. within.now ≡ written_in area.now (block_values R.value listing.now.pieces.items) order.now) }
    ensures few { IfSome result (λ within. length within.now ≤ length (block_rows listing.now.pieces.items)) }
    ensures times { IfSome result (λ within. HasAllTimes area.now → ⊥) }
{
    if has_all_times(area) {
        return None;
    }
    let within = written_in(listing, order, area);
    if is_short_by_place(listing, area, within.len()) {
        None
    } else {
        Some(within)
    }
}

// Whether the box includes the row at the position.
fn is_found<R: Row>(listing: &Listing<R>, area: &Box3, at: u32) -> bool
    ensures { result ≡ passes_at (is_in area.now) (block_values R.value listing.now.pieces.items) at }
{
    match listing.get(at) {
        Some(row) => is_in(row, area),
        None => false,
    }
}

// How many of the positions are of rows that the box includes.
pub(crate) fn count_at<R: Row>(listing: &Listing<R>, area: &Box3, ats: &[u32]) -> u32
    requires { length ats.now < 2 ^ 32 }
    ensures { result ≡ length (found_at area.now (block_values R.value listing.now.pieces.items) ats.now) }
{
    let mut count = 0;
    for i in 0..ats.len() {
        count += one_if(is_found(listing, area, ats[i]));
    }
    count
}

// Those of the positions that are of rows that the box includes.
pub(crate) fn found_at<R: Row>(
    alloc: Global,
    listing: &Listing<R>,
    area: &Box3,
    ats: &[u32],
) -> Result<Vec<u32>, NoMemory>
    ensures { IfOk result (λ found. found.items ≡ found_at area.now (block_values R.value listing.now.pieces.items) ats.now) }
{
    let mut found = Vec::new(alloc);
    for i in 0..ats.len() {
        let at = ats[i];
        note(&mut found, at, is_found(listing, area, at))?;
    }
    Ok(found)
}

// The leaf of the row at a position where the box includes it, and else the total of no row.
fn leaf_at<R: Row, L: Ledger>(
    listing: &Listing<R>,
    area: &Box3,
    at: u32,
    steps: &mut Steps<L>,
) -> Lanes
    ensures total { result ≡ total_by (row_bytes_at (block_values R.value listing.now.pieces.items)) (found_at area.now (block_values R.value listing.now.pieces.items) (at ∷ [])) }
    ensures steps { steps.new ≤ steps.old + 1 }
{
    match listing.told(at) {
        Some((row, leaf)) => leaf_if_in(row, leaf, area, steps),
        None => Lanes::zero(),
    }
}

// The total of those of the positions' rows that the box includes, of which each leaf is taken once.
pub(crate) fn total_at<R: Row, L: Ledger>(
    listing: &Listing<R>,
    area: &Box3,
    ats: &[u32],
    steps: &mut Steps<L>,
) -> Lanes
    ensures total { result ≡ total_by (row_bytes_at (block_values R.value listing.now.pieces.items)) (found_at area.now (block_values R.value listing.now.pieces.items) ats.now) }
    ensures steps { steps.new ≤ steps.old + length ats.now }
{
    let mut total = Lanes::zero();
    for i in 0..ats.len() {
        let part = leaf_at(listing, area, ats[i], steps);
        total = total.add(&part);
    }
    total
}
