//! What holds of streams: of any cutting into pieces, and of any grammar of bodies.

ghost use Rattle.row_stream.specs.Pieces.{EndAlikeInAnyPieces, HaveOneStream, HoldsForAnyCutting};

use willow_entry::RowForm;

/// Over any cutting into pieces, the rows that are handed out are the rows at the front of the stream: all whole rows so
/// far where nothing is refused, and the first of them where the stream is refused.
#[tactic(auto, using(crate::proofs::Cutting::any_cutting))]
pub fn any_cutting<F: RowForm>()
    ensures { HoldsForAnyCutting F.IsRow }
{}

/// Bytes have one reading at most: the rows at the front, what is left behind them, and why that is refused.
pub fn one_reading<F: RowForm>()
    ensures { HaveOneStream F.IsRow }
{}

/// The same bytes in other pieces end alike: with the same refusal, or with the same rows and the same frame begun.
pub fn pieces_do_not_matter<F: RowForm>()
    ensures { EndAlikeInAnyPieces F.IsRow }
{}
