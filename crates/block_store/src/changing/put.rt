//! An uncovered row goes to its place, and the rows that it dominates go.

ghost use Rattle.std.specs.Prelude.{◌≡◌, ℕ, ◌+◌, ◌^◌, ◌<◌, ◌≤◌, [], ◌∷◌, ◌++◌, length, take, drop, count_by, OnOk, OnErr, IfOk, vec_len};
ghost use Rattle.willow_entry.specs.Pruning.{IsPlace};
ghost use Rattle.willow_entry.specs.Row.{RowValue, AreLive, IsRising, HasCovering, is_dominating, left_of, place_cmp, live};
ghost use Rattle.block_store.specs.Blocks.{block_rows, block_values, index_of, size_at, IsSpot};
ghost use Rattle.block_store.specs.Packing.{IsPacked};
ghost use Rattle.block_store.specs.Held.{values_of};

use crate::block::{BLOCK_ROWS, Piece};
use crate::changing::append::piece_of;
use crate::changing::enter::enter;
use crate::changing::renew::{renewed, replace};
use crate::changing::thin::pruned_in;
use crate::looking::place::run_end;
use crate::looking::spot::Spot;
use std::alloc::Global;
use std::sync::Arc;
use willow_entry::Row;
use willow_path::NoMemory;

// The number of blocks that hold the rows before a spot.
fn blocks_before<R: Row>(pieces: &[Piece<R>], end: Spot) -> usize
    requires { IsSpot pieces.now end }
    ensures within { result ≤ length pieces.now }
    ensures upto { index_of pieces.now end ≤ length (block_rows (take result pieces.now)) }
{
    let _length = pieces.len();
    if end.row > 0 {
        end.block + 1
    } else {
        end.block
    }
}

// The number of blocks up to the end of a run that begins at a spot.
fn blocks_to<R: Row>(pieces: &[Piece<R>], at: Spot, end: Spot) -> usize
    requires at { IsSpot pieces.now at }
    requires end { IsSpot pieces.now end }
    ensures from { at.block ≤ result }
    ensures within { result ≤ length pieces.now }
    ensures upto { index_of pieces.now end ≤ length (block_rows (take result pieces.now)) }
{
    at.block.max(blocks_before(pieces, end))
}

// The number of blocks up to the end of the run of rows that the row may dominate, and how many of them it dominates.
fn run_of<R: Row>(pieces: &[Piece<R>], row: &R, at: Spot) -> (usize, usize)
    requires few { length (block_rows pieces.now) < 2 ^ 32 }
    requires rising { IsRising (block_values R.value pieces.now) }
    requires spot { IsSpot pieces.now at }
    requires place { IsPlace place_cmp (R.value row.now) (block_values R.value pieces.now) (index_of pieces.now at) }
    ensures from { at.block ≤ result.0 }
    ensures within { result.0 ≤ length pieces.now }
    ensures stays { left_of (R.value row.now) (block_values R.value (drop result.0 pieces.now)) ≡ block_values R.value (drop result.0 pieces.now) }
    ensures pruned { result.1 ≡ count_by (is_dominating (R.value row.now)) (block_values R.value pieces.now) }
{
    let end = run_end(pieces, row, at);
    let to = blocks_to(pieces, at, end);
    // Most rows have no extension: then none goes, and no row of the block is looked at.
    if end.block == at.block && end.row == at.row {
        return (to, 0);
    }
    (to, pruned_in(&pieces[at.block..to], row))
}

// Where a row goes in that stands at a spot: behind all rows into the last block.
fn entry<R: Row>(pieces: &[Piece<R>], at: Spot) -> Spot
    requires some { 0 < length pieces.now }
    requires spot { IsSpot pieces.now at }
    ensures block { result.block < length pieces.now }
    ensures row { result.row ≤ size_at pieces.now result.block }
    ensures index { index_of pieces.now result ≡ index_of pieces.now at }
{
    if at.block < pieces.len() {
        return at;
    }
    let block = pieces.len() - 1;
    let row = pieces[block].len as usize;
    Spot { block, row }
}

// Puts the row at the spot and makes the blocks round it anew.
fn rebuild<R: Row>(
    pieces: &mut Vec<Piece<R>>,
    held: Arc<R>,
    at: Spot,
    to: usize,
) -> Result<(), NoMemory>
    requires from { at.block < to }
    requires within { to ≤ vec_len pieces.old }
    requires row { at.row ≤ size_at pieces.old.items at.block }
    requires place { IsPlace place_cmp (R.value held.value) (block_values R.value pieces.old.items) (index_of pieces.old.items at) }
    requires stays { left_of (R.value held.value) (block_values R.value (drop to pieces.old.items)) ≡ block_values R.value (drop to pieces.old.items) }
    requires is_live { AreLive (block_values R.value pieces.old.items) }
    requires uncovered { HasCovering (block_values R.value pieces.old.items) (R.value held.value) → ⊥ }
    ensures rows { OnOk result (block_values R.value pieces.new.items ≡ live (block_values R.value pieces.old.items ++ R.value held.value ∷ [])) }
    ensures packed { IsPacked pieces.old.items → IsPacked pieces.new.items }
    ensures err { OnErr result (pieces.new.items ≡ pieces.old.items) }
{
    let fresh = renewed(pieces, at, to, &held)?;
    let upto = (to + 1).min(pieces.len());
    replace(pieces, at.block.saturating_sub(1), upto, fresh)
}

// The block of one row.
fn alone<R: Row>(alloc: Global, held: Arc<R>) -> Result<Piece<R>, NoMemory>
    ensures { IfOk result (λ piece. values_of R.value piece.block.value.rows.items ≡ R.value held.value ∷ []) }
{
    let mut rows = Vec::with_capacity(alloc, BLOCK_ROWS)?;
    rows.push(held)?;
    piece_of(rows)
}

// The first block of a store.
fn begin<R: Row>(pieces: &mut Vec<Piece<R>>, held: Arc<R>) -> Result<(), NoMemory>
    requires { vec_len pieces.old ≡ 0 }
    ensures rows { OnOk result (block_values R.value pieces.new.items ≡ R.value held.value ∷ []) }
    ensures packed { IsPacked pieces.old.items → IsPacked pieces.new.items }
    ensures err { OnErr result (pieces.new.items ≡ pieces.old.items) }
{
    let piece = alone(*pieces.allocator(), held)?;
    pieces.push(piece)?;
    Ok(())
}

// Puts the row in its place. Blocks from `to` on keep all their rows; where it dominates none of the rows, and its
// block has room, no other block is looked at.
fn settle<R: Row>(
    pieces: &mut Vec<Piece<R>>,
    held: Arc<R>,
    at: Spot,
    to: usize,
    pruned: usize,
) -> Result<(), NoMemory>
    requires spot { IsSpot pieces.old.items at }
    requires from { at.block ≤ to }
    requires within { to ≤ vec_len pieces.old }
    requires place { IsPlace place_cmp (R.value held.value) (block_values R.value pieces.old.items) (index_of pieces.old.items at) }
    requires stays { left_of (R.value held.value) (block_values R.value (drop to pieces.old.items)) ≡ block_values R.value (drop to pieces.old.items) }
    requires none { pruned ≡ 0 → left_of (R.value held.value) (block_values R.value pieces.old.items) ≡ block_values R.value pieces.old.items }
    requires is_live { AreLive (block_values R.value pieces.old.items) }
    requires uncovered { HasCovering (block_values R.value pieces.old.items) (R.value held.value) → ⊥ }
    ensures rows { OnOk result (block_values R.value pieces.new.items ≡ live (block_values R.value pieces.old.items ++ R.value held.value ∷ [])) }
    ensures packed { IsPacked pieces.old.items → IsPacked pieces.new.items }
    ensures err { OnErr result (block_rows pieces.new.items ≡ block_rows pieces.old.items) }
{
    if pieces.len() == 0 {
        return begin(pieces, held);
    }
    let spot = entry(pieces, at);
    if pruned == 0 && (pieces[spot.block].len as usize) < BLOCK_ROWS {
        return enter(pieces, spot, held);
    }
    rebuild(pieces, held, spot, to.max(spot.block + 1))
}

// Puts an uncovered row in its place among the live rows that it does not dominate, and counts the others.
pub(crate) fn put<R: Row>(
    pieces: &mut Vec<Piece<R>>,
    held: Arc<R>,
    at: Spot,
) -> Result<usize, NoMemory>
    requires few { length (block_rows pieces.old.items) < 2 ^ 32 }
    requires is_live { AreLive (block_values R.value pieces.old.items) }
    requires uncovered { HasCovering (block_values R.value pieces.old.items) (R.value held.value) → ⊥ }
    requires spot { IsSpot pieces.old.items at }
    requires place { IsPlace place_cmp (R.value held.value) (block_values R.value pieces.old.items) (index_of pieces.old.items at) }
    ensures rows { OnOk result (block_values R.value pieces.new.items ≡ live (block_values R.value pieces.old.items ++ R.value held.value ∷ [])) }
    ensures pruned { IfOk result (λ pruned. pruned ≡ count_by (is_dominating (R.value held.value)) (block_values R.value pieces.old.items)) }
    ensures packed { IsPacked pieces.old.items → IsPacked pieces.new.items }
    ensures err { OnErr result (block_rows pieces.new.items ≡ block_rows pieces.old.items) }
{
    let (to, pruned) = run_of(pieces, &*held, at);
    settle(pieces, held, at, to, pruned)?;
    Ok(pruned)
}
