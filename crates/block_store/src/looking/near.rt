//! Searches that begin where the rows that pass a test may end: two tests tell whether they do.

ghost use Rattle.std.specs.Prelude.{◌≡◌, ℕ, ◌+◌, ◌≤◌, true, false, length, slice_get, Some, IsTrue, IfSome};
ghost use Rattle.std.specs.List.Sorted.{IsPartitionedBy, IsPartitionPoint};
ghost use Rattle.willow_entry.specs.Row.{RowValue};
ghost use Rattle.block_store.specs.Blocks.{block_values, index_of, last_passes, EndPassing, IsSpot};
ghost use Rattle.block_store.specs.Held.{values_of};

use crate::block::Piece;
use crate::looking::index::{before, is_spot, row_at};
use crate::looking::search::{Test, ends_passing, passing_blocks, passing_rows, spot_in};
use crate::looking::spot::Spot;
use willow_entry::Row;

// How many blocks from a guess on are looked at, since blocks before it may have become more.
const NEAR_BLOCKS: usize = 3;

// Whether a row stands at the spot that passes.
fn passes_at<R: Row, T: Test<R>>(pieces: &[Piece<R>], test: &T, at: Spot) -> bool
    requires { IsSpot pieces.now at }
    ensures { (s : RowValue) → slice_get (block_values R.value pieces.now) (index_of pieces.now at) ≡ Some s → result ≡ T.test test.now s }
{
    match row_at(pieces, at) {
        Some(held) => test.passes(held),
        None => false,
    }
}

// Whether the row before the spot passes, where there is one.
fn passes_before<R: Row, T: Test<R>>(pieces: &[Piece<R>], test: &T, at: Spot) -> bool
    requires { IsSpot pieces.now at }
    ensures { IsTrue result → (s : RowValue) (n : ℕ) → n + 1 ≡ index_of pieces.now at → slice_get (block_values R.value pieces.now) n ≡ Some s → T.test test.now s ≡ true }
{
    match before(pieces, at) {
        Some(last) => passes_at(pieces, test, last),
        None => true,
    }
}

// Whether the rows that pass end at the spot.
fn is_end<R: Row, T: Test<R>>(pieces: &[Piece<R>], test: &T, at: Spot) -> bool
    requires { IsPartitionedBy (T.test test.now) (block_values R.value pieces.now) }
    ensures spot { IsTrue result → IsSpot pieces.now at }
    ensures point { IsTrue result → IsPartitionPoint (λ r. T.test test.now r ≡ true) (λ r. T.test test.now r ≡ false) (block_values R.value pieces.now) (index_of pieces.now at) }
{
    if !is_spot(pieces, at) || passes_at(pieces, test, at) {
        return false;
    }
    passes_before(pieces, test, at)
}

// The spot behind the row at another, if there is one.
fn behind<R: Row>(pieces: &[Piece<R>], spot: Spot) -> Spot {
    if spot.block >= pieces.len() {
        return Spot {
            block: pieces.len(),
            row: 0,
        };
    }
    let Spot { block, row } = spot;
    if row < pieces[block].len as usize - 1 {
        Spot {
            block,
            row: row + 1,
        }
    } else {
        Spot {
            block: block + 1,
            row: 0,
        }
    }
}

// The number of blocks whose last row passes, if it is the number guessed or little more.
fn passing_blocks_from<R: Row, T: Test<R>>(
    pieces: &[Piece<R>],
    test: &T,
    near: usize,
) -> Option<usize>
    requires { IsPartitionedBy (λ p. last_passes (T.test test.now) (values_of R.value p.block.value.rows.items)) pieces.now }
    ensures point { IfSome result (λ block. EndPassing R.value (T.test test.now) pieces.now block) }
    ensures bound { IfSome result (λ block. block ≤ length pieces.now) }
{
    if near >= pieces.len() {
        return None;
    }
    if near > 0 && !ends_passing(&*pieces[near - 1].block, test) {
        return None;
    }
    for block in near..pieces.len().min(near + NEAR_BLOCKS) {
        if !ends_passing(&*pieces[block].block, test) {
            return Some(block);
        }
    }
    None
}

// The number of blocks whose last row passes.
fn passing_blocks_near<R: Row, T: Test<R>>(pieces: &[Piece<R>], test: &T, near: usize) -> usize
    requires { IsPartitionedBy (λ p. last_passes (T.test test.now) (values_of R.value p.block.value.rows.items)) pieces.now }
    ensures point { EndPassing R.value (T.test test.now) pieces.now result }
    ensures bound { result ≤ length pieces.now }
{
    match passing_blocks_from(pieces, test, near) {
        Some(block) => block,
        None => passing_blocks(pieces, test),
    }
}

// Where the rows end that pass: looked for first right behind the row at a spot, and then in the blocks from its block
// on.
pub(crate) fn partition_point_behind<R: Row, T: Test<R>>(
    pieces: &[Piece<R>],
    test: &T,
    guess: Spot,
) -> Spot
    requires { IsPartitionedBy (T.test test.now) (block_values R.value pieces.now) }
    ensures spot { IsSpot pieces.now result }
    ensures point { IsPartitionPoint (λ r. T.test test.now r ≡ true) (λ r. T.test test.now r ≡ false) (block_values R.value pieces.now) (index_of pieces.now result) }
{
    let next = behind(pieces, guess);
    if is_end(pieces, test, next) {
        return next;
    }
    let block = passing_blocks_near(pieces, test, guess.block);
    spot_in(pieces, test, block)
}

// Where the rows end that pass, if they end at one of the two spots.
fn end_of<R: Row, T: Test<R>>(
    pieces: &[Piece<R>],
    test: &T,
    first: Spot,
    second: Spot,
) -> Option<Spot>
    requires { IsPartitionedBy (T.test test.now) (block_values R.value pieces.now) }
    ensures spot { IfSome result (λ spot. IsSpot pieces.now spot) }
    ensures point { IfSome result (λ spot. IsPartitionPoint (λ r. T.test test.now r ≡ true) (λ r. T.test test.now r ≡ false) (block_values R.value pieces.now) (index_of pieces.now spot)) }
{
    if is_end(pieces, test, first) {
        Some(first)
    } else if is_end(pieces, test, second) {
        Some(second)
    } else {
        None
    }
}

// Where the rows end that pass: looked for first at two spots, and then in the block of the second and in those round it.
pub(crate) fn partition_point_near<R: Row, T: Test<R>>(
    pieces: &[Piece<R>],
    test: &T,
    guess: Spot,
    near: Spot,
) -> Spot
    requires { IsPartitionedBy (T.test test.now) (block_values R.value pieces.now) }
    ensures spot { IsSpot pieces.now result }
    ensures point { IsPartitionPoint (λ r. T.test test.now r ≡ true) (λ r. T.test test.now r ≡ false) (block_values R.value pieces.now) (index_of pieces.now result) }
{
    if let Some(spot) = end_of(pieces, test, guess, near) {
        return spot;
    }
    if let Some(spot) = partition_point_in(pieces, test, near.block) {
        return spot;
    }
    let block = passing_blocks_near(pieces, test, near.block.saturating_sub(1));
    spot_in(pieces, test, block)
}

// Where the rows end that pass, if they end inside the block.
fn partition_point_in<R: Row, T: Test<R>>(
    pieces: &[Piece<R>],
    test: &T,
    block: usize,
) -> Option<Spot>
    requires { IsPartitionedBy (T.test test.now) (block_values R.value pieces.now) }
    ensures spot { IfSome result (λ spot. IsSpot pieces.now spot) }
    ensures point { IfSome result (λ spot. IsPartitionPoint (λ r. T.test test.now r ≡ true) (λ r. T.test test.now r ≡ false) (block_values R.value pieces.now) (index_of pieces.now spot)) }
{
    if block >= pieces.len() {
        return None;
    }
    let rows = &pieces[block].block.rows;
    let row = passing_rows(rows, test);
    if row == 0 || row >= rows.len() {
        return None;
    }
    Some(Spot { block, row })
}
