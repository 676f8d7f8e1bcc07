//! Rows, one after the other.

ghost use Rattle.std.specs.Prelude.{◌≡◌, [], ◌∷◌, IfNone, MatchOption};
ghost use Rattle.block_store.specs.Blocks.{block_rows};

use crate::block::Piece;
use crate::looking::index::{next, row_at};
use crate::looking::spot::Spot;
use std::marker::Model;
use willow_entry::Row;

/// The rows of a store or a snapshot that are still to come, by rising place. A contract sees the list of these rows.
#[derive(Drop)]
pub struct Rows<'a, R: Row> {
    pieces: &'a [Piece<R>],
    at: Spot,
}

impl<'a, R: Row> Model for Rows<'a, R> {
    ghost use Rattle.std.specs.Prelude.{List, drop};
    ghost use Rattle.block_store.specs.Blocks.{block_rows, index_of, IsSpot};

    ghost Value = { List R };

    ghost view = { λ r. drop (index_of r.pieces.now r.at) (block_rows r.pieces.now) };

    ghost invariant = { λ r. IsSpot r.pieces.now r.at };
}

// All rows of the blocks.
pub(crate) fn rows_of<R: Row>(pieces: &[Piece<R>]) -> Rows<'_, R>
    ensures { result ≡ block_rows pieces.now }
{
    Rows {
        pieces,
        at: Spot { block: 0, row: 0 },
    }
}

impl<'a, R: Row> Rows<'a, R> {
    /// The next row; None exactly where none is left, which stays so.
    pub fn next(&mut self) -> Option<&'a R>
        ensures next { MatchOption result (self.old ≡ []) (λ row. self.old ≡ row.now ∷ self.new) }
        ensures none { IfNone result (self.new ≡ []) }
    {
        let pieces = self.pieces;
        let row = row_at(pieces, self.at)?;
        self.at = next(pieces, self.at);
        Some(row)
    }
}
