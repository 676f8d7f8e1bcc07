//! A row goes into a block: in place where no snapshot shares the block, and else into a copy of its list.

ghost use Rattle.std.specs.Prelude.{◌≡◌, ◌+◌, ◌^◌, ◌<◌, ◌≤◌, insert, length, take, slice_index_or, OnOk, OnErr, IfOk, vec_len};
ghost use Rattle.block_store.specs.Blocks.{block_rows, block_values, index_of, size_at};
ghost use Rattle.block_store.specs.Packing.{IsPacked};
ghost use Rattle.block_store.specs.Held.{rows_of, values_of};
ghost use Rattle.block_store.specs.Times.{AreWritten};

use crate::block::{Block, Piece};
use crate::looking::spot::Spot;
use counted_slot::Counted;
use std::sync::Arc;
use willow_entry::Row;
use willow_path::NoMemory;

// The later of two times.
fn later(a: u64, b: u64) -> u64
    ensures first { a ≤ result }
    ensures second { b ≤ result }
{
    if a < b { b } else { a }
}

// The earliest and the latest time at which the rows were written.
fn times<R: Row>(rows: &[Arc<R>]) -> (u64, u64)
    ensures { AreWritten result.0 result.1 (values_of R.value rows.now) }
{
    let (mut earliest, mut latest) = (u64::MAX, 0);
    for at in 0..rows.len() {
        let time = (*rows[at]).entry().timestamp;
        earliest = earliest.min(time);
        latest = later(latest, time);
    }
    (earliest, latest)
}

// The block of these rows. None of them is hashed.
pub(crate) fn block_of<R: Row>(rows: Vec<Arc<R>>) -> Block<R>
    requires some { 0 < vec_len rows }
    requires few { vec_len rows ≤ 64 }
    ensures { result.rows ≡ rows }
{
    let (earliest, latest) = times(&rows);
    let cell = Counted::new(None, &rows);
    Block {
        rows,
        earliest,
        latest,
        cell,
    }
}

// Puts the row in its place in the block, whose times and total are renewed.
fn enter_own<R: Row>(block: &mut Block<R>, at: usize, held: Arc<R>) -> Result<(), NoMemory>
    requires room { vec_len block.old.rows < 64 }
    requires within { at ≤ vec_len block.old.rows }
    ensures rows { OnOk result (values_of R.value block.new.rows.items ≡ insert (values_of R.value block.old.rows.items) at (R.value held.value)) }
    ensures more { OnOk result (vec_len block.new.rows ≡ vec_len block.old.rows + 1) }
    ensures err { OnErr result (block.new.rows.items ≡ block.old.rows.items) }
{
    let time = (*held).entry().timestamp;
    block.rows.insert(at, held)?;
    block.earliest = block.earliest.min(time);
    block.latest = later(block.latest, time);
    block.cell = Counted::new(None, &block.rows);
    Ok(())
}

// The same rows, shared once more.
fn share<R: Row>(rows: &Vec<Arc<R>>) -> Result<Vec<Arc<R>>, NoMemory>
    ensures few { IfOk result (λ copy. vec_len copy ≡ vec_len rows.now) }
    ensures same { IfOk result (λ copy. values_of R.value copy.items ≡ values_of R.value rows.now.items) }
{
    Ok(rows.clone()?)
}

// A block of the rows with one more.
fn with_row<R: Row>(rows: &Vec<Arc<R>>, at: usize, held: Arc<R>) -> Result<Block<R>, NoMemory>
    requires room { vec_len rows.now < 64 }
    requires within { at ≤ vec_len rows.now }
    ensures rows { IfOk result (λ block. values_of R.value block.rows.items ≡ insert (values_of R.value rows.now.items) at (R.value held.value)) }
    ensures more { IfOk result (λ block. vec_len block.rows ≡ vec_len rows.now + 1) }
{
    let mut copy = share(rows)?;
    copy.insert(at, held)?;
    Ok(block_of(copy))
}

// A block of the rows with one more, behind an `Arc` of its own.
fn copy_with_row<R: Row>(
    block: &Block<R>,
    at: usize,
    held: Arc<R>,
) -> Result<Arc<Block<R>>, NoMemory>
    requires room { vec_len block.now.rows < 64 }
    requires within { at ≤ vec_len block.now.rows }
    ensures rows { IfOk result (λ copy. values_of R.value copy.value.rows.items ≡ insert (values_of R.value block.now.rows.items) at (R.value held.value)) }
    ensures more { IfOk result (λ copy. vec_len copy.value.rows ≡ vec_len block.now.rows + 1) }
{
    let alloc = *block.rows.allocator();
    let copy = with_row(&block.rows, at, held)?;
    Ok(Arc::new(alloc, copy)?)
}

// Puts the row in its place in the block, or in a copy where the block is shared.
fn enter_block<R: Row>(block: &mut Arc<Block<R>>, at: usize, held: Arc<R>) -> Result<(), NoMemory>
    requires room { vec_len block.old.value.rows < 64 }
    requires within { at ≤ vec_len block.old.value.rows }
    ensures rows { OnOk result (values_of R.value block.new.value.rows.items ≡ insert (values_of R.value block.old.value.rows.items) at (R.value held.value)) }
    ensures more { OnOk result (vec_len block.new.value.rows ≡ vec_len block.old.value.rows + 1) }
    ensures same { OnErr result (vec_len block.new.value.rows ≡ vec_len block.old.value.rows) }
    ensures err { OnErr result (rows_of block.new.value.rows.items ≡ rows_of block.old.value.rows.items) }
{
    match Arc::get_mut(block) {
        Some(own) => enter_own(own, at, held),
        None => {
            *block = copy_with_row(&**block, at, held)?;
            Ok(())
        }
    }
}

// Puts the row in its place in the block of the piece.
fn enter_piece<R: Row>(piece: &mut Piece<R>, at: usize, held: Arc<R>) -> Result<(), NoMemory>
    requires room { vec_len piece.old.block.value.rows < 64 }
    requires within { at ≤ vec_len piece.old.block.value.rows }
    ensures rows { OnOk result (values_of R.value piece.new.block.value.rows.items ≡ insert (values_of R.value piece.old.block.value.rows.items) at (R.value held.value)) }
    ensures larger { vec_len piece.old.block.value.rows ≤ vec_len piece.new.block.value.rows }
    ensures err { OnErr result (rows_of piece.new.block.value.rows.items ≡ rows_of piece.old.block.value.rows.items) }
{
    enter_block(&mut piece.block, at, held)?;
    piece.len += 1;
    Ok(())
}

// Puts the row in its place in the block at the spot.
pub(crate) fn enter<R: Row>(
    pieces: &mut Vec<Piece<R>>,
    at: Spot,
    held: Arc<R>,
) -> Result<(), NoMemory>
    requires block { at.block < vec_len pieces.old }
    requires room { size_at pieces.old.items at.block < 64 }
    requires within { at.row ≤ size_at pieces.old.items at.block }
    ensures rows { OnOk result (block_values R.value pieces.new.items ≡ insert (block_values R.value pieces.old.items) (index_of pieces.old.items at) (R.value held.value)) }
    ensures packed { IsPacked pieces.old.items → IsPacked pieces.new.items }
    ensures err { OnErr result (block_rows pieces.new.items ≡ block_rows pieces.old.items) }
{
    enter_piece(&mut pieces[at.block], at.row, held)
}
