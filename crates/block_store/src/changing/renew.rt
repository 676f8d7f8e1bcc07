//! The blocks round a row's place are made anew: those that it changes, and one before and one behind them, so that
//! neighbours which fit into one block are joined.

ghost use Rattle.std.specs.Prelude.{◌≡◌, ℕ, ◌+◌, ◌-◌, ◌<◌, ◌≤◌, [], ◌∷◌, ◌++◌, length, take, drop, OnOk, OnErr, IfOk, vec_len};
ghost use Rattle.willow_entry.specs.Row.{RowValue, left_of};
ghost use Rattle.block_store.specs.Blocks.{block_rows, block_values, index_of, size_at};
ghost use Rattle.block_store.specs.Packing.{IsPacked, IsGrown, first_size, last_size};
ghost use Rattle.block_store.specs.Entered.{entered, entered_upto};
ghost use Rattle.block_store.specs.Held.{values_of};

use crate::block::{BLOCK_ROWS, Piece};
use crate::changing::append::{add_row, add_rows, append, append_shared, piece_of, share};
use crate::changing::thin::{add_left, add_thinned, append_rows};
use crate::looking::spot::Spot;
use std::alloc::Global;
use std::sync::Arc;
use willow_entry::Row;
use willow_path::NoMemory;

// A list that begins with the block before a place, where there is one.
fn begun<R: Row>(pieces: &[Piece<R>], at: usize) -> Result<Vec<Piece<R>>, NoMemory>
    requires { at < length pieces.now }
    ensures packed { IfOk result (λ fresh. IsPacked fresh.items) }
    ensures first { IfOk result (λ fresh. 0 < at → size_at pieces.now (at - 1) ≤ first_size fresh.items) }
    ensures values { IfOk result (λ fresh. block_values R.value (take (at - 1) pieces.now) ++ block_values R.value fresh.items ≡ block_values R.value (take at pieces.now)) }
{
    let mut fresh = Vec::new(*pieces[at].block.rows.allocator());
    if at == 0 {
        return Ok(fresh);
    }
    fresh.push(share(&pieces[at - 1])?)?;
    Ok(fresh)
}

// Adds the rows in two blocks.
fn add_halves<R: Row>(fresh: &mut Vec<Piece<R>>, rows: Vec<Arc<R>>) -> Result<(), NoMemory>
    requires some { 32 < vec_len rows }
    requires few { vec_len rows ≤ 65 }
    ensures values { OnOk result (block_values R.value fresh.new.items ≡ block_values R.value fresh.old.items ++ values_of R.value rows.items) }
    ensures grown { OnOk result (IsGrown fresh.old.items fresh.new.items) }
{
    let mut front = rows;
    let behind = front.split_off(BLOCK_ROWS / 2)?;
    append_rows(fresh, front)?;
    append_rows(fresh, behind)
}

// Adds the rows in one block, or where they are too many in two.
fn add_split<R: Row>(fresh: &mut Vec<Piece<R>>, rows: Vec<Arc<R>>) -> Result<(), NoMemory>
    requires some { 0 < vec_len rows }
    requires few { vec_len rows ≤ 65 }
    ensures values { OnOk result (block_values R.value fresh.new.items ≡ block_values R.value fresh.old.items ++ values_of R.value rows.items) }
    ensures grown { OnOk result (IsGrown fresh.old.items fresh.new.items) }
{
    if rows.len() > BLOCK_ROWS {
        return add_halves(fresh, rows);
    }
    append(fresh, piece_of(rows)?)
}

// Adds the rows with one more, but for those behind it that it dominates.
fn add_entered_rows<R: Row>(
    all: &mut Vec<Arc<R>>,
    rows: &[Arc<R>],
    at: usize,
    held: &Arc<R>,
) -> Result<(), NoMemory>
    requires { at ≤ length rows.now }
    ensures rows { OnOk result (values_of R.value all.new.items ≡ values_of R.value all.old.items ++ entered (R.value held.now.value) at (values_of R.value rows.now)) }
    ensures some { OnOk result (vec_len all.old < vec_len all.new) }
    ensures few { OnOk result (vec_len all.new ≤ vec_len all.old + length rows.now + 1) }
{
    let (front, behind) = rows.split_at(at);
    add_rows(all, front)?;
    add_row(all, held)?;
    add_left(all, behind, &**held)?;
    Ok(())
}

// The rows with one more, but for those behind it that it dominates.
fn entered_rows<R: Row>(
    alloc: Global,
    rows: &[Arc<R>],
    at: usize,
    held: &Arc<R>,
) -> Result<Vec<Arc<R>>, NoMemory>
    requires { at ≤ length rows.now }
    ensures rows { IfOk result (λ all. values_of R.value all.items ≡ entered (R.value held.now.value) at (values_of R.value rows.now)) }
    ensures some { IfOk result (λ all. 0 < vec_len all) }
    ensures few { IfOk result (λ all. vec_len all ≤ length rows.now + 1) }
{
    let mut all = Vec::with_capacity(alloc, BLOCK_ROWS)?;
    add_entered_rows(&mut all, rows, at, held)?;
    Ok(all)
}

// Adds the rows of a block with one more, but for those behind it that it dominates.
fn add_entered<R: Row>(
    fresh: &mut Vec<Piece<R>>,
    piece: &Piece<R>,
    at: usize,
    held: &Arc<R>,
) -> Result<(), NoMemory>
    requires { at ≤ length piece.now.block.value.rows.items }
    ensures grown { OnOk result (IsGrown fresh.old.items fresh.new.items) }
    ensures values { OnOk result (block_values R.value fresh.new.items ≡ block_values R.value fresh.old.items ++ entered (R.value held.now.value) at (values_of R.value piece.now.block.value.rows.items)) }
{
    let rows = entered_rows(*fresh.allocator(), &piece.block.rows, at, held)?;
    add_split(fresh, rows)
}

// Ends the list with the block at a place, where there is one.
fn end_with<R: Row>(
    fresh: &mut Vec<Piece<R>>,
    pieces: &[Piece<R>],
    to: usize,
) -> Result<(), NoMemory>
    ensures grown { OnOk result (IsGrown fresh.old.items fresh.new.items) }
    ensures last { OnOk result (to < length pieces.now → size_at pieces.now to ≤ last_size fresh.new.items) }
    ensures values { OnOk result (block_values R.value fresh.new.items ++ block_values R.value (drop (to + 1) pieces.now) ≡ block_values R.value fresh.old.items ++ block_values R.value (drop to pieces.now)) }
{
    if to < pieces.len() {
        append_shared(fresh, &pieces[to])?;
    }
    Ok(())
}

// Adds, behind what ends before the spot's block, that block with the row at the spot, and the blocks up to the one at
// `to`: of the rows behind the spot those before `to` go that the row dominates.
fn add_renewed<R: Row>(
    fresh: &mut Vec<Piece<R>>,
    pieces: &[Piece<R>],
    at: Spot,
    to: usize,
    held: &Arc<R>,
) -> Result<(), NoMemory>
    requires from { at.block < to }
    requires within { to ≤ length pieces.now }
    requires row { at.row ≤ size_at pieces.now at.block }
    requires begun { block_values R.value (take (at.block - 1) pieces.now) ++ block_values R.value fresh.old.items ≡ block_values R.value (take at.block pieces.now) }
    ensures grown { OnOk result (IsGrown fresh.old.items fresh.new.items) }
    ensures last { OnOk result (to < length pieces.now → size_at pieces.now to ≤ last_size fresh.new.items) }
    ensures values { OnOk result (block_values R.value (take (at.block - 1) pieces.now ++ (fresh.new.items ++ drop (to + 1) pieces.now)) ≡ entered_upto R.value pieces.now at to (R.value held.now.value)) }
{
    add_entered(fresh, &pieces[at.block], at.row, held)?;
    add_thinned(fresh, &pieces[at.block + 1..to], &**held)?;
    end_with(fresh, pieces, to)?;
    Ok(())
}

// What stands in the place of the blocks from the one before the spot's on, up to the one at `to`: the row stands at
// the spot, and of the rows behind it those before `to` go that it dominates.
pub(crate) fn renewed<R: Row>(
    pieces: &[Piece<R>],
    at: Spot,
    to: usize,
    held: &Arc<R>,
) -> Result<Vec<Piece<R>>, NoMemory>
    requires from { at.block < to }
    requires within { to ≤ length pieces.now }
    requires row { at.row ≤ size_at pieces.now at.block }
    ensures packed { IfOk result (λ fresh. IsPacked fresh.items) }
    ensures first { IfOk result (λ fresh. 0 < at.block → size_at pieces.now (at.block - 1) ≤ first_size fresh.items) }
    ensures last { IfOk result (λ fresh. to < length pieces.now → size_at pieces.now to ≤ last_size fresh.items) }
    ensures values { IfOk result (λ fresh. block_values R.value (take (at.block - 1) pieces.now ++ (fresh.items ++ drop (to + 1) pieces.now)) ≡ entered_upto R.value pieces.now at to (R.value held.now.value)) }
{
    let mut fresh = begun(pieces, at.block)?;
    add_renewed(&mut fresh, pieces, at, to, held)?;
    Ok(fresh)
}

// Puts blocks in the place of those from `from` on and before `to`.
pub(crate) fn replace<R: Row>(
    pieces: &mut Vec<Piece<R>>,
    from: usize,
    to: usize,
    fresh: Vec<Piece<R>>,
) -> Result<(), NoMemory>
    requires from { from ≤ to }
    requires within { to ≤ vec_len pieces.old }
    ensures blocks { OnOk result (pieces.new.items ≡ take from pieces.old.items ++ (fresh.items ++ drop to pieces.old.items)) }
    ensures err { OnErr result (pieces.new.items ≡ pieces.old.items) }
{
    let _gone = pieces.splice(from..to, fresh)?;
    Ok(())
}
