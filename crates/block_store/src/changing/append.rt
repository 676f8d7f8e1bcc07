//! Blocks are put together anew, so that neighbours which fit into one block are joined.

ghost use Rattle.std.specs.Prelude.{◌≡◌, ◌+◌, ◌<◌, ◌≤◌, [], ◌∷◌, ◌++◌, length, OnOk, OnErr, IfOk, vec_len};
ghost use Rattle.block_store.specs.Blocks.{block_values};
ghost use Rattle.block_store.specs.Packing.{IsPacked, IsGrown, first_size, last_size};
ghost use Rattle.block_store.specs.Held.{values_of};

use crate::block::{BLOCK_ROWS, Piece};
use crate::changing::enter::block_of;
use std::alloc::Global;
use std::sync::Arc;
use willow_entry::Row;
use willow_path::NoMemory;

// The block of these rows with their number.
pub(crate) fn piece_of<R: Row>(rows: Vec<Arc<R>>) -> Result<Piece<R>, NoMemory>
    requires some { 0 < vec_len rows }
    requires few { vec_len rows ≤ 64 }
    ensures { IfOk result (λ piece. piece.block.value.rows ≡ rows) }
{
    let (alloc, len) = (*rows.allocator(), rows.len() as u32);
    let block = Arc::new(alloc, block_of(rows))?;
    Ok(Piece { block, len })
}

// The same block, shared once more.
pub(crate) fn share<R: Row>(piece: &Piece<R>) -> Result<Piece<R>, NoMemory>
    ensures { IfOk result (λ copy. copy.block.value ≡ piece.now.block.value) }
{
    Ok(Piece {
        block: piece.block.clone()?,
        len: piece.len,
    })
}

// Adds the row, shared once more.
pub(crate) fn add_row<R: Row>(all: &mut Vec<Arc<R>>, held: &Arc<R>) -> Result<(), NoMemory>
    ensures rows { OnOk result (values_of R.value all.new.items ≡ values_of R.value all.old.items ++ R.value held.now.value ∷ []) }
    ensures more { OnOk result (vec_len all.new ≡ vec_len all.old + 1) }
    ensures same { OnErr result (vec_len all.new ≡ vec_len all.old) }
{
    all.push(held.clone()?)?;
    Ok(())
}

// Adds the rows.
pub(crate) fn add_rows<R: Row>(all: &mut Vec<Arc<R>>, rows: &[Arc<R>]) -> Result<(), NoMemory>
    ensures rows { OnOk result (values_of R.value all.new.items ≡ values_of R.value all.old.items ++ values_of R.value rows.now) }
    ensures more { OnOk result (vec_len all.new ≡ vec_len all.old + length rows.now) }
{
    for at in 0..rows.len() {
        add_row(all, &rows[at])?;
    }
    Ok(())
}

// The rows of both lists, one list behind the other.
fn both_rows<R: Row>(
    alloc: Global,
    front: &[Arc<R>],
    behind: &[Arc<R>],
) -> Result<Vec<Arc<R>>, NoMemory>
    ensures rows { IfOk result (λ rows. values_of R.value rows.items ≡ values_of R.value front.now ++ values_of R.value behind.now) }
    ensures count { IfOk result (λ rows. vec_len rows ≡ length front.now + length behind.now) }
{
    let mut rows = Vec::with_capacity(alloc, BLOCK_ROWS)?;
    add_rows(&mut rows, front)?;
    add_rows(&mut rows, behind)?;
    Ok(rows)
}

// The rows of both in one block.
fn joined<R: Row>(front: &Piece<R>, behind: &Piece<R>) -> Result<Piece<R>, NoMemory>
    requires { length front.now.block.value.rows.items + length behind.now.block.value.rows.items ≤ 64 }
    ensures { IfOk result (λ piece. values_of R.value piece.block.value.rows.items ≡ values_of R.value front.now.block.value.rows.items ++ values_of R.value behind.now.block.value.rows.items) }
{
    let alloc = *front.block.rows.allocator();
    let rows = both_rows(alloc, &front.block.rows, &behind.block.rows)?;
    piece_of(rows)
}

// Adds the rows of the last block and of one behind it as one block.
fn push_joined<R: Row>(
    fresh: &mut Vec<Piece<R>>,
    last: &Piece<R>,
    piece: &Piece<R>,
) -> Result<(), NoMemory>
    requires { length last.now.block.value.rows.items + length piece.now.block.value.rows.items ≤ 64 }
    ensures values { OnOk result (block_values R.value fresh.new.items ≡ block_values R.value (fresh.old.items ++ last.now ∷ []) ++ values_of R.value piece.now.block.value.rows.items) }
    ensures grown { OnOk result (IsGrown (fresh.old.items ++ last.now ∷ []) fresh.new.items) }
    ensures last { OnOk result (length piece.now.block.value.rows.items ≤ last_size fresh.new.items) }
{
    let both = joined(last, piece)?;
    fresh.push(both)?;
    Ok(())
}

// Adds the last block and one behind it, which do not fit into one block.
fn push_both<R: Row>(
    fresh: &mut Vec<Piece<R>>,
    last: Piece<R>,
    piece: Piece<R>,
) -> Result<(), NoMemory>
    requires { 64 < length last.block.value.rows.items + length piece.block.value.rows.items }
    ensures values { OnOk result (block_values R.value fresh.new.items ≡ block_values R.value (fresh.old.items ++ last ∷ []) ++ values_of R.value piece.block.value.rows.items) }
    ensures grown { OnOk result (IsGrown (fresh.old.items ++ last ∷ []) fresh.new.items) }
    ensures last { OnOk result (length piece.block.value.rows.items ≤ last_size fresh.new.items) }
{
    fresh.push(last)?;
    fresh.push(piece)?;
    Ok(())
}

// Adds the last block and one behind it, joined where both fit into one block.
fn append_both<R: Row>(
    fresh: &mut Vec<Piece<R>>,
    last: Piece<R>,
    piece: Piece<R>,
) -> Result<(), NoMemory>
    ensures values { OnOk result (block_values R.value fresh.new.items ≡ block_values R.value (fresh.old.items ++ last ∷ []) ++ values_of R.value piece.block.value.rows.items) }
    ensures grown { OnOk result (IsGrown (fresh.old.items ++ last ∷ []) fresh.new.items) }
    ensures last { OnOk result (length piece.block.value.rows.items ≤ last_size fresh.new.items) }
{
    if last.len + piece.len <= BLOCK_ROWS as u32 {
        return push_joined(fresh, &last, &piece);
    }
    push_both(fresh, last, piece)
}

// Adds a block, joined with the last one where both fit into one block.
pub(crate) fn append<R: Row>(fresh: &mut Vec<Piece<R>>, piece: Piece<R>) -> Result<(), NoMemory>
    ensures values { OnOk result (block_values R.value fresh.new.items ≡ block_values R.value fresh.old.items ++ values_of R.value piece.block.value.rows.items) }
    ensures grown { OnOk result (IsGrown fresh.old.items fresh.new.items) }
    ensures last { OnOk result (length piece.block.value.rows.items ≤ last_size fresh.new.items) }
{
    match fresh.pop() {
        Some(last) => append_both(fresh, last, piece),
        None => {
            fresh.push(piece)?;
            Ok(())
        }
    }
}

// Adds a block that stays as it is.
pub(crate) fn append_shared<R: Row>(
    fresh: &mut Vec<Piece<R>>,
    piece: &Piece<R>,
) -> Result<(), NoMemory>
    ensures values { OnOk result (block_values R.value fresh.new.items ≡ block_values R.value fresh.old.items ++ values_of R.value piece.now.block.value.rows.items) }
    ensures grown { OnOk result (IsGrown fresh.old.items fresh.new.items) }
    ensures last { OnOk result (length piece.now.block.value.rows.items ≤ last_size fresh.new.items) }
{
    append(fresh, share(piece)?)
}
