//! What the definitions mean. These functions do nothing: each is called, if at all, for its clauses.

ghost use Rattle.std.specs.Prelude.{◌≡◌, ℕ, ◌+◌, ◌*◌, ◌/◌, ◌<◌, ◌≤◌, sum, slice_index_or, ◌↔◌, Bool, List, Some, None, map, filter, length, slice_get};
ghost use Rattle.std.specs.List.Sorted.{IsStrictlySortedBy};
ghost use Rattle.std.specs.Ordering.{nat_cmp};
ghost use Rattle.willow_entry.specs.Row.{RowValue};
ghost use Rattle.block_store.specs.Packing.{ArePacked};
ghost use Rattle.block_store.specs.Positions.{positions};

/// The positions of the rows that pass a test, as those that a box includes, number these rows: the rows at
/// the positions are just the rows that pass, in their order. So the n-th position, counted from 0, is that
/// of the n-th row that passes, and there is none exactly where at most n rows pass. Positions rise.
#[tactic(auto, using(crate::proofs::Numbering::rows_there, crate::proofs::Numbering::row_there, crate::proofs::Numbering::none_there, crate::proofs::Numbering::positions_rise))]
pub fn numbering()
    ensures rows { (test : RowValue → Bool) (rows : List RowValue) → map (slice_get rows) (positions test rows) ≡ map (λ row. Some row) (filter test rows) }
    ensures row { (test : RowValue → Bool) (rows : List RowValue) (n at : ℕ) → slice_get (positions test rows) n ≡ Some at → slice_get rows at ≡ slice_get (filter test rows) n }
    ensures none { (test : RowValue → Bool) (rows : List RowValue) (n : ℕ) → (slice_get (positions test rows) n ≡ None) ↔ (length (filter test rows) ≤ n) }
    ensures rise { (test : RowValue → Bool) (rows : List RowValue) → IsStrictlySortedBy nat_cmp (positions test rows) }
{}

/// Blocks of which two neighbours have more than 64 rows together are at most twice as many as their rows need, at 64
/// rows a block.
#[tactic(auto, using(crate::proofs::Packs::few_blocks))]
pub fn packing()
    ensures { (sizes : List ℕ) → ((k : ℕ) → k < length sizes → 0 < slice_index_or sizes k 0) → ArePacked sizes → length sizes ≤ 2 * ((sum sizes + 63) / 64) }
{}
