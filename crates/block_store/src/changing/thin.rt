//! What a row leaves of others.

ghost use Rattle.std.specs.Prelude.{◌≡◌, ℕ, ◌+◌, ◌^◌, ◌<◌, ◌≤◌, [], ◌∷◌, ◌++◌, length, count_by, OnOk, IfOk, vec_len, if◌then◌else◌};
ghost use Rattle.willow_entry.specs.Row.{RowValue, is_dominating, left_of};
ghost use Rattle.block_store.specs.Blocks.{block_values};
ghost use Rattle.block_store.specs.Packing.{IsGrown};
ghost use Rattle.block_store.specs.Held.{values_of};

use crate::block::{BLOCK_ROWS, Block, Piece};
use crate::changing::append::{add_row, append, append_shared, piece_of};
use std::alloc::Global;
use std::sync::Arc;
use willow_entry::{Row, dominates};
use willow_path::NoMemory;

// Whether the held row goes where the row is stored.
pub(crate) fn prunes<R: Row>(row: &R, held: &R) -> bool
    ensures { result ≡ is_dominating (R.value row.now) (R.value held.now) }
{
    dominates(row, held)
}

// 1 for a row that goes.
fn one_if(goes: bool) -> usize
    ensures value { result ≡ (if goes then 1 else 0) }
    ensures small { result ≤ 1 }
{
    if goes { 1 } else { 0 }
}

// How many of the rows the row dominates.
fn pruned_rows<R: Row>(rows: &[Arc<R>], row: &R) -> usize
    ensures count { result ≡ count_by (is_dominating (R.value row.now)) (values_of R.value rows.now) }
    ensures bound { result ≤ length rows.now }
{
    let mut count = 0;
    for at in 0..rows.len() {
        count += one_if(prunes(row, &*rows[at]));
    }
    count
}

// How many rows of the block the row dominates: none where all were written later.
fn pruned_of<R: Row>(block: &Block<R>, row: &R) -> usize
    ensures { result ≡ count_by (is_dominating (R.value row.now)) (values_of R.value block.now.rows.items) }
{
    if block.earliest > row.entry().timestamp {
        return 0;
    }
    pruned_rows(&block.rows, row)
}

// How many rows of the blocks the row dominates.
pub(crate) fn pruned_in<R: Row>(pieces: &[Piece<R>], row: &R) -> usize
    requires { length (block_values R.value pieces.now) < 2 ^ 32 }
    ensures count { result ≡ count_by (is_dominating (R.value row.now)) (block_values R.value pieces.now) }
    ensures bound { result ≤ length (block_values R.value pieces.now) }
{
    let mut count = 0;
    for at in 0..pieces.len() {
        count += pruned_of(&*pieces[at].block, row);
    }
    count
}

// Adds the row where it stays.
fn keep<R: Row>(kept: &mut Vec<Arc<R>>, held: &Arc<R>, goes: bool) -> Result<(), NoMemory>
    ensures rows { OnOk result (values_of R.value kept.new.items ≡ values_of R.value kept.old.items ++ (if goes then [] else R.value held.now.value ∷ [])) }
    ensures few { vec_len kept.new ≤ vec_len kept.old + 1 }
{
    if !goes {
        add_row(kept, held)?;
    }
    Ok(())
}

// Adds the rows that the row does not dominate.
pub(crate) fn add_left<R: Row>(
    kept: &mut Vec<Arc<R>>,
    rows: &[Arc<R>],
    row: &R,
) -> Result<(), NoMemory>
    ensures rows { OnOk result (values_of R.value kept.new.items ≡ values_of R.value kept.old.items ++ left_of (R.value row.now) (values_of R.value rows.now)) }
    ensures few { vec_len kept.new ≤ vec_len kept.old + length rows.now }
{
    for at in 0..rows.len() {
        let held = &rows[at];
        let goes = prunes(row, &**held);
        keep(kept, held, goes)?;
    }
    Ok(())
}

// The rows of a block that the row does not dominate.
fn left_rows<R: Row>(alloc: Global, rows: &[Arc<R>], row: &R) -> Result<Vec<Arc<R>>, NoMemory>
    ensures rows { IfOk result (λ kept. values_of R.value kept.items ≡ left_of (R.value row.now) (values_of R.value rows.now)) }
    ensures few { IfOk result (λ kept. vec_len kept ≤ length rows.now) }
{
    let mut kept = Vec::with_capacity(alloc, BLOCK_ROWS)?;
    add_left(&mut kept, rows, row)?;
    Ok(kept)
}

// Adds the rows in one block, where there are any.
pub(crate) fn append_rows<R: Row>(
    fresh: &mut Vec<Piece<R>>,
    rows: Vec<Arc<R>>,
) -> Result<(), NoMemory>
    requires { vec_len rows ≤ 64 }
    ensures values { OnOk result (block_values R.value fresh.new.items ≡ block_values R.value fresh.old.items ++ values_of R.value rows.items) }
    ensures grown { OnOk result (IsGrown fresh.old.items fresh.new.items) }
{
    if rows.len() == 0 {
        return Ok(());
    }
    append(fresh, piece_of(rows)?)
}

// Adds what the row leaves of a block: the block itself where it leaves all of it.
fn thin<R: Row>(fresh: &mut Vec<Piece<R>>, piece: &Piece<R>, row: &R) -> Result<(), NoMemory>
    ensures values { OnOk result (block_values R.value fresh.new.items ≡ block_values R.value fresh.old.items ++ left_of (R.value row.now) (values_of R.value piece.now.block.value.rows.items)) }
    ensures grown { OnOk result (IsGrown fresh.old.items fresh.new.items) }
{
    if pruned_of(&*piece.block, row) == 0 {
        return append_shared(fresh, piece);
    }
    let kept = left_rows(*fresh.allocator(), &piece.block.rows, row)?;
    append_rows(fresh, kept)
}

// Adds what the row leaves of the blocks.
pub(crate) fn add_thinned<R: Row>(
    fresh: &mut Vec<Piece<R>>,
    pieces: &[Piece<R>],
    row: &R,
) -> Result<(), NoMemory>
    ensures values { OnOk result (block_values R.value fresh.new.items ≡ block_values R.value fresh.old.items ++ left_of (R.value row.now) (block_values R.value pieces.now)) }
    ensures grown { OnOk result (IsGrown fresh.old.items fresh.new.items) }
{
    for at in 0..pieces.len() {
        thin(fresh, &pieces[at], row)?;
    }
    Ok(())
}
