//! What the definitions mean, and what follows from them. These functions do nothing: each is called,
//! if at all, for its clauses.

ghost use Rattle.std.specs.Prelude.{◌≡◌, ◌↔◌, ℕ, ◌+◌, ◌≤◌, List, Some, None, All, IsTrue, false, not, filter, length};
ghost use Rattle.std.specs.List.Sorted.{IsStrictlySortedBy};
ghost use Rattle.std.specs.Ordering.{is_gt};
ghost use Rattle.willow_area.specs.Boxes.{Ranges};
ghost use Rattle.willow_area.specs.Cuts.{can_cut, lower_part, upper_part};
ghost use Rattle.willow_area.specs.declared.cut.CutAt.{CutAt};
ghost use Rattle.willow_entry.specs.Entry.{bytes_cmp};
ghost use Rattle.willow_entry.specs.Row.{RowValue, inner_place_cmp};
ghost use Rattle.block_store.specs.InBox.{rows_in};
ghost use Rattle.range_split.specs.Points.{DimensionPoints, cuts_at};
ghost use Rattle.range_split.specs.Least.{least_above, IsNext};
ghost use Rattle.range_split.specs.Choice.{choice, Chooses};
ghost use Rattle.range_split.specs.Parts.{Divides};
ghost use Rattle.range_split.specs.Quarters.{even_choice};
ghost use Rattle.range_split.specs.Sides.{is_row_below, PartRows, LeavesRows};
ghost use Rattle.range_split.specs.declared.choice.Choice.{Choice};

use crate::choice::ENTRIES_MAX;

/// Rows are told without a cut exactly where they are no more than this number.
#[tactic(auto, using(crate::proofs::Choosing::choice_none))]
pub fn limit()
    ensures number { ENTRIES_MAX ≡ 16 }
    ensures entries { (rows : List RowValue) → (choice rows ≡ None) ↔ (length rows ≤ ENTRIES_MAX) }
{}

/// The least subspace above another is one of the list, is above it, and none of the list that is above it is less.
/// There is none exactly where none of the list is above it.
pub fn next_subspaces()
    ensures some { (low key : List ℕ) (keys : List (List ℕ)) → least_above low keys ≡ Some key → IsNext low keys key }
    ensures none { (low : List ℕ) (keys : List (List ℕ)) → (least_above low keys ≡ None) ↔ All (λ key. is_gt (bytes_cmp key low) ≡ false) keys }
{}

/// No two different answers are both right for a box and the rows of a snapshot.
#[tactic(auto, using(crate::proofs::Choosing::one_answer))]
pub fn one_choice()
    ensures one { (area : Ranges) (rows : List RowValue) (one other : Choice) → Chooses area rows one → Chooses area rows other → one ≡ other }
{}

/// The parts of a box that is cut share its rows out: the lower part has those below the point, the upper part the
/// others.
#[tactic(auto, using(crate::proofs::Shares::lower_rows, crate::proofs::Shares::upper_rows, crate::proofs::Shares::part_counts))]
pub fn parts()
    ensures lower { (area : Ranges) (rows : List RowValue) (at : CutAt) → IsTrue (can_cut area at) → rows_in (lower_part area at) rows ≡ filter (is_row_below at) (rows_in area rows) }
    ensures upper { (area : Ranges) (rows : List RowValue) (at : CutAt) → IsTrue (can_cut area at) → rows_in (upper_part area at) rows ≡ filter (λ row. not (is_row_below at row)) (rows_in area rows) }
    ensures counts { (area : Ranges) (rows : List RowValue) (at : CutAt) → IsTrue (can_cut area at) → length (rows_in (lower_part area at) rows) + length (rows_in (upper_part area at) rows) ≡ length (rows_in area rows) }
{}

/// Where rows rise by subspace and path, as those of one namespace do in a store, the points of a choice rise above the
/// first row, with a row at each of them, and a cut of the box at any of them leaves rows of the box in both parts.
pub fn sides()
    ensures points { (rows : List RowValue) (points : DimensionPoints) → IsStrictlySortedBy inner_place_cmp rows → choice rows ≡ Some points → PartRows rows points }
    ensures parts { (area : Ranges) (rows : List RowValue) (points : DimensionPoints) → IsStrictlySortedBy inner_place_cmp rows → choice (rows_in area rows) ≡ Some points → All (LeavesRows area rows) (cuts_at points) }
{}

/// Where rows rise by subspace and path, the points of a choice of up to four parts divide the rows of the box: into two
/// to four parts, each with a row, and a row of the box is in just one of them.
pub fn even_parts()
    ensures divides { (area : Ranges) (rows : List RowValue) (points : DimensionPoints) → IsStrictlySortedBy inner_place_cmp rows → even_choice (rows_in area rows) ≡ Some points → Divides area rows (cuts_at points) }
{}

/// In a choice of up to four parts too, rows are told without a cut exactly where they are no more than `ENTRIES_MAX`.
#[tactic(auto, using(crate::proofs::Quartering::even_none))]
pub fn even_limit()
    ensures entries { (rows : List RowValue) → (even_choice rows ≡ None) ↔ (length rows ≤ ENTRIES_MAX) }
{}
