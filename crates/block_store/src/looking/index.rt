//! Positions in the list of all rows, and the rows that stand there.

ghost use Rattle.std.specs.Prelude.{◌≡◌, ℕ, ◌+◌, ◌^◌, ◌<◌, ◌≤◌, length, min, slice_get, Some, IsTrue, IfSome, MatchOption};
ghost use Rattle.block_store.specs.Blocks.{block_rows, index_of, IsSpot};

use crate::block::Piece;
use crate::looking::spot::Spot;
use willow_entry::Row;

// How many rows stand before the spot, by the numbers that the list keeps.
pub(crate) fn index_of<R: Row>(pieces: &[Piece<R>], spot: Spot) -> usize
    requires spot { IsSpot pieces.now spot }
    requires few { length (block_rows pieces.now) < 2 ^ 32 }
    ensures index { result ≡ index_of pieces.now spot }
    ensures bound { result ≤ length (block_rows pieces.now) }
{
    let mut before = 0;
    for at in 0..spot.block {
        before += pieces[at].len as usize;
    }
    before + spot.row
}

// The row at the spot; None exactly behind all rows.
pub(crate) fn row_at<R: Row>(pieces: &[Piece<R>], spot: Spot) -> Option<&R>
    requires { IsSpot pieces.now spot }
    ensures { MatchOption result (length (block_rows pieces.now) ≤ index_of pieces.now spot) (λ row. slice_get (block_rows pieces.now) (index_of pieces.now spot) ≡ Some row.now) }
{
    if spot.block >= pieces.len() {
        return None;
    }
    Some(&*pieces[spot.block].block.rows[spot.row])
}

// The spot behind a row.
pub(crate) fn next<R: Row>(pieces: &[Piece<R>], spot: Spot) -> Spot
    requires spot { IsSpot pieces.now spot }
    requires some { index_of pieces.now spot < length (block_rows pieces.now) }
    ensures spot { IsSpot pieces.now result }
    ensures index { index_of pieces.now result ≡ index_of pieces.now spot + 1 }
{
    let row = spot.row + 1;
    if row < pieces[spot.block].len as usize {
        return Spot {
            block: spot.block,
            row,
        };
    }
    Spot {
        block: spot.block + 1,
        row: 0,
    }
}

// The spot of the row at the position, or behind all rows.
pub(crate) fn spot_of<R: Row>(pieces: &[Piece<R>], at: usize) -> Spot
    ensures spot { IsSpot pieces.now result }
    ensures index { index_of pieces.now result ≡ min at (length (block_rows pieces.now)) }
{
    let mut left = at;
    for block in 0..pieces.len() {
        let len = pieces[block].len as usize;
        if left < len {
            return Spot { block, row: left };
        }
        left -= len;
    }
    Spot {
        block: pieces.len(),
        row: 0,
    }
}

// Whether it is a spot at a row, or behind all rows.
pub(crate) fn is_spot<R: Row>(pieces: &[Piece<R>], spot: Spot) -> bool
    ensures { IsTrue result → IsSpot pieces.now spot }
{
    if spot.block < pieces.len() {
        spot.row < pieces[spot.block].len as usize
    } else {
        spot.block == pieces.len() && spot.row == 0
    }
}

// The spot of the row before a spot; None exactly where there is none.
pub(crate) fn before<R: Row>(pieces: &[Piece<R>], spot: Spot) -> Option<Spot>
    requires { IsSpot pieces.now spot }
    ensures spot { IfSome result (λ last. IsSpot pieces.now last) }
    ensures index { MatchOption result (index_of pieces.now spot ≡ 0) (λ last. index_of pieces.now last + 1 ≡ index_of pieces.now spot) }
{
    if spot.row > 0 {
        return Some(Spot {
            block: spot.block,
            row: spot.row - 1,
        });
    }
    let _length = pieces.len();
    let block = spot.block.checked_sub(1)?;
    Some(Spot {
        block,
        row: pieces[block].len as usize - 1,
    })
}
