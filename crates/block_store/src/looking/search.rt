//! The one search among rows in blocks: where the rows end that pass a test.

ghost use Rattle.std.specs.Prelude.{◌≡◌, ◌≤◌, Bool, true, false, length};
ghost use Rattle.std.specs.List.Sorted.{IsPartitionedBy, IsPartitionPoint};
ghost use Rattle.willow_entry.specs.Row.{RowValue};
ghost use Rattle.block_store.specs.Blocks.{block_values, index_of, last_passes, EndPassing, IsSpot};
ghost use Rattle.block_store.specs.Held.{values_of};

use crate::block::{Block, Piece};
use crate::looking::spot::Spot;
use std::sync::Arc;
use willow_entry::Row;

// A test of rows.
pub(crate) trait Test<R: Row> {
    ghost test: { Self → RowValue → Bool };

    fn passes(&self, row: &R) -> bool
        ensures { result ≡ test self.now (R.value row.now) };
}

// Whether the last row of the block passes.
pub(crate) fn ends_passing<R: Row, T: Test<R>>(block: &Block<R>, test: &T) -> bool
    ensures { result ≡ last_passes (T.test test.now) (values_of R.value block.now.rows.items) }
{
    let last = &block.rows[block.rows.len() - 1];
    test.passes(&**last)
}

// The number of blocks whose last row passes. Rows often come in rising order: then all pass, which the last one tells.
pub(crate) fn passing_blocks<R: Row, T: Test<R>>(pieces: &[Piece<R>], test: &T) -> usize
    requires { IsPartitionedBy (λ p. last_passes (T.test test.now) (values_of R.value p.block.value.rows.items)) pieces.now }
    ensures point { EndPassing R.value (T.test test.now) pieces.now result }
    ensures bound { result ≤ length pieces.now }
{
    let count = pieces.len();
    if count > 0 && ends_passing(&*pieces[count - 1].block, test) {
        return count;
    }
    pieces.partition_point(|piece| ends_passing(&*piece.block, test))
}

// The number of rows that pass. A row often comes behind all of its subspace, and so where a block begins: then none
// passes, which the first one tells.
pub(crate) fn passing_rows<R: Row, T: Test<R>>(rows: &[Arc<R>], test: &T) -> usize
    requires { IsPartitionedBy (T.test test.now) (values_of R.value rows.now) }
    ensures point { IsPartitionPoint (λ r. T.test test.now r ≡ true) (λ r. T.test test.now r ≡ false) (values_of R.value rows.now) result }
    ensures bound { result ≤ length rows.now }
{
    if rows.len() > 0 && !test.passes(&*rows[0]) {
        return 0;
    }
    rows.partition_point(|held| test.passes(&**held))
}

// Where the rows end that pass: in the first block that does not end passing.
pub(crate) fn spot_in<R: Row, T: Test<R>>(pieces: &[Piece<R>], test: &T, block: usize) -> Spot
    requires split { IsPartitionedBy (T.test test.now) (block_values R.value pieces.now) }
    requires point { EndPassing R.value (T.test test.now) pieces.now block }
    requires bound { block ≤ length pieces.now }
    ensures spot { IsSpot pieces.now result }
    ensures point { IsPartitionPoint (λ r. T.test test.now r ≡ true) (λ r. T.test test.now r ≡ false) (block_values R.value pieces.now) (index_of pieces.now result) }
{
    if block >= pieces.len() {
        return Spot { block, row: 0 };
    }
    let row = passing_rows(&pieces[block].block.rows, test);
    Spot { block, row }
}

// Where the rows end that pass the test, where none of them stands behind one that does not: by the last rows of the
// blocks, and then in the first block that does not end passing.
pub(crate) fn partition_point<R: Row, T: Test<R>>(pieces: &[Piece<R>], test: &T) -> Spot
    requires { IsPartitionedBy (T.test test.now) (block_values R.value pieces.now) }
    ensures spot { IsSpot pieces.now result }
    ensures point { IsPartitionPoint (λ r. T.test test.now r ≡ true) (λ r. T.test test.now r ≡ false) (block_values R.value pieces.now) (index_of pieces.now result) }
{
    let block = passing_blocks(pieces, test);
    spot_in(pieces, test, block)
}
