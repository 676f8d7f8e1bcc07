//! Where a row stands among rows that rise by place: its own place, those of the fronts of its path, and the run of
//! its extensions.

ghost use Rattle.std.specs.Prelude.{◌≡◌, ℕ, ◌+◌, ◌-◌, ◌^◌, ◌<◌, ◌≤◌, ◌||◌, length, drop, position, slice_index_or, false, IsTrue, IfOk, IfErr, IfSome, IfNone, None, Some};
ghost use Rattle.std.specs.Ordering.{is_lt};
ghost use Rattle.willow_entry.specs.Pruning.{IsPlace};
ghost use Rattle.willow_entry.specs.Row.{RowValue, AreLive, IsRising, HasCovering, IsCoveringAt, is_at_prefix, is_covering, left_of, inner_place_cmp, place_cmp};
ghost use Rattle.block_store.specs.Blocks.{block_rows, block_values, index_of, IsSpot};
ghost use Rattle.block_store.specs.Front.{front, covers_at, HaveComponents, ReachFrom};

use crate::block::Piece;
use crate::looking::guess::Guess;
use crate::looking::index::{index_of, row_at};
use crate::looking::near::{partition_point_behind, partition_point_near};
use crate::looking::search::{Test, partition_point};
use crate::looking::spot::Spot;
use std::cmp::Ordering;
use willow_entry::{Row, covers};

// How the subspace and the path of a row are ordered against those of another's front of so many components.
fn inner_by_front<R: Row>(held: &R, row: &R, count: usize) -> Ordering
    ensures { result ≡ inner_place_cmp (R.value held.now) (front (R.value row.now) count) }
{
    let (e, f) = (held.entry(), row.entry());
    match e.subspace.cmp(&f.subspace) {
        Ordering::Equal => e.path.cmp_front(&f.path, count),
        order => order,
    }
}

// How the place of a row is ordered against that of another's front of so many components.
#[tactic(auto, unfolding(willow_entry::specs::Row::place_cmp))]
fn by_front<R: Row>(held: &R, row: &R, count: usize) -> Ordering
    ensures { result ≡ place_cmp (R.value held.now) (front (R.value row.now) count) }
{
    match held.entry().namespace.cmp(&row.entry().namespace) {
        Ordering::Equal => inner_by_front(held, row, count),
        order => order,
    }
}

// Standing below the place of the row's front of so many components.
#[derive(Drop)]
struct BelowFront<'a, R: Row> {
    row: &'a R,
    count: usize,
}

impl<'a, R: Row> Test<R> for BelowFront<'a, R> {
    ghost test = { λ t held. is_lt (place_cmp held (front (R.value t.row.now) t.count)) };

    fn passes(&self, held: &R) -> bool {
        by_front(held, self.row, self.count) == Ordering::Less
    }
}

// Standing below the row's place, or at an extension of its path.
#[derive(Drop)]
struct UpToExtensions<'a, R: Row> {
    row: &'a R,
}

impl<'a, R: Row> Test<R> for UpToExtensions<'a, R> {
    ghost test = { λ t held. is_lt (place_cmp held (R.value t.row.now)) || is_at_prefix (R.value t.row.now) held };

    fn passes(&self, held: &R) -> bool {
        by_front(held, self.row, self.row.entry().path.count()) == Ordering::Less
            || extends(held, self.row)
    }
}

// Where the row's front of so many components stands, looked for first right behind a guess.
fn place<R: Row>(pieces: &[Piece<R>], row: &R, count: usize, guess: Spot) -> Spot
    requires { IsRising (block_values R.value pieces.now) }
    ensures spot { IsSpot pieces.now result }
    ensures place { IsPlace place_cmp (front (R.value row.now) count) (block_values R.value pieces.now) (index_of pieces.now result) }
{
    partition_point_behind(pieces, &BelowFront { row, count }, guess)
}

// The same, looked for first at a guess, at another spot, and in the blocks there.
fn place_near<R: Row>(pieces: &[Piece<R>], row: &R, count: usize, guess: Spot, near: Spot) -> Spot
    requires { IsRising (block_values R.value pieces.now) }
    ensures spot { IsSpot pieces.now result }
    ensures place { IsPlace place_cmp (front (R.value row.now) count) (block_values R.value pieces.now) (index_of pieces.now result) }
{
    partition_point_near(pieces, &BelowFront { row, count }, guess, near)
}

// Where the row stands, looked for first right behind a guess.
pub(crate) fn own_place<R: Row>(pieces: &[Piece<R>], row: &R, guess: Spot) -> Spot
    requires { IsRising (block_values R.value pieces.now) }
    ensures spot { IsSpot pieces.now result }
    ensures place { IsPlace place_cmp (R.value row.now) (block_values R.value pieces.now) (index_of pieces.now result) }
{
    place(pieces, row, row.entry().path.count(), guess)
}

// The same, looked for first at a guess.
pub(crate) fn own_place_at<R: Row>(pieces: &[Piece<R>], row: &R, guess: Spot) -> Spot
    requires { IsRising (block_values R.value pieces.now) }
    ensures spot { IsSpot pieces.now result }
    ensures place { IsPlace place_cmp (R.value row.now) (block_values R.value pieces.now) (index_of pieces.now result) }
{
    place_near(pieces, row, row.entry().path.count(), guess, guess)
}

// Whether the held row stands in the row's namespace and subspace, at an extension of its path or at the path itself.
#[tactic(auto, unfolding(willow_entry::specs::Row::is_at_prefix))]
fn extends<R: Row>(held: &R, row: &R) -> bool
    ensures { result ≡ is_at_prefix (R.value row.now) (R.value held.now) }
{
    let (e, f) = (row.entry(), held.entry());
    e.namespace == f.namespace && e.subspace == f.subspace && e.path.is_prefix_of(&f.path)
}

// Where the run of rows ends that the row may dominate: it begins at the row's place.
pub(crate) fn run_end<R: Row>(pieces: &[Piece<R>], row: &R, at: Spot) -> Spot
    requires rising { IsRising (block_values R.value pieces.now) }
    requires spot { IsSpot pieces.now at }
    requires place { IsPlace place_cmp (R.value row.now) (block_values R.value pieces.now) (index_of pieces.now at) }
    ensures spot { IsSpot pieces.now result }
    ensures from { index_of pieces.now at ≤ index_of pieces.now result }
    ensures stays { left_of (R.value row.now) (drop (index_of pieces.now result) (block_values R.value pieces.now)) ≡ drop (index_of pieces.now result) (block_values R.value pieces.now) }
{
    // Most rows have no extension: then the first row behind tells it, without a search.
    match row_at(pieces, at) {
        Some(first) if extends(first, row) => partition_point(pieces, &UpToExtensions { row }),
        _ => at,
    }
}

// Whether the held row is the row or dominates it. Most rows that are asked about stand at no prefix of its path.
fn is_covering<R: Row>(held: &R, row: &R) -> bool
    ensures { result ≡ is_covering (R.value held.now) (R.value row.now) }
{
    extends(row, held) && covers(held, row)
}

// Whether a row stands at the spot that is the row or dominates it.
fn is_covered_at<R: Row>(pieces: &[Piece<R>], row: &R, at: Spot) -> bool
    requires { IsSpot pieces.now at }
    ensures found { IsTrue result → (index_of pieces.now at < length (block_values R.value pieces.now)) × IsTrue (covers_at (block_values R.value pieces.now) (index_of pieces.now at) (R.value row.now)) }
    ensures not_found { result ≡ false → index_of pieces.now at < length (block_values R.value pieces.now) → covers_at (block_values R.value pieces.now) (index_of pieces.now at) (R.value row.now) ≡ false }
{
    match row_at(pieces, at) {
        Some(held) => is_covering(held, row),
        None => false,
    }
}

// The first position whose row is the row or dominates it, at a front of its path that is not the path itself: no row
// has fewer components than `fewest`, and most fronts stand in the row's own block. Where there is no such position,
// such a row has all components of the path.
fn covered_in_front<R: Row>(
    pieces: &[Piece<R>],
    row: &R,
    fewest: usize,
    guess: &mut Guess,
) -> Option<u32>
    requires rising { IsRising (block_values R.value pieces.now) }
    requires few { length (block_rows pieces.now) < 2 ^ 32 }
    requires fewest { HaveComponents (block_values R.value pieces.now) fewest }
    ensures found { IfSome result (λ i. position (λ s. is_covering s (R.value row.now)) (block_values R.value pieces.now) ≡ Some i) }
    ensures none { IfNone result (ReachFrom (block_values R.value pieces.now) (R.value row.now) (length (R.value row.now).entry.path)) }
{
    for count in fewest..row.entry().path.count() {
        let at = place_near(pieces, row, count, guess.front(count - fewest), guess.own);
        guess.note_front(count - fewest, at);
        if is_covered_at(pieces, row, at) {
            return Some(index_of(pieces, at) as u32);
        }
    }
    None
}

// The place of a row that no row equals or dominates, or else the first position whose row does. Such rows stand at
// the fronts of its path. No row has fewer components than `fewest`.
pub(crate) fn place_or_cover<R: Row>(
    pieces: &[Piece<R>],
    row: &R,
    fewest: usize,
    guess: &mut Guess,
) -> Result<Spot, u32>
    requires few { length (block_rows pieces.now) < 2 ^ 32 }
    requires is_live { AreLive (block_values R.value pieces.now) }
    requires fewest { HaveComponents (block_values R.value pieces.now) fewest }
    ensures spot { IfOk result (λ at. IsSpot pieces.now at) }
    ensures place { IfOk result (λ at. IsPlace place_cmp (R.value row.now) (block_values R.value pieces.now) (index_of pieces.now at)) }
    ensures free { IfOk result (λ at. position (λ s. is_covering s (R.value row.now)) (block_values R.value pieces.now) ≡ None) }
    ensures covered { IfErr result (λ by. position (λ s. is_covering s (R.value row.now)) (block_values R.value pieces.now) ≡ Some by) }
{
    let at = own_place(pieces, row, guess.own);
    guess.own = at;
    if let Some(by) = covered_in_front(pieces, row, fewest, guess) {
        return Err(by);
    }
    if is_covered_at(pieces, row, at) {
        return Err(index_of(pieces, at) as u32);
    }
    Ok(at)
}

// The first position whose row is the row or dominates it, among live rows, with what it means.
pub(crate) fn cover<R: Row>(
    pieces: &[Piece<R>],
    row: &R,
    fewest: usize,
    guess: Guess,
) -> Option<u32>
    requires few { length (block_rows pieces.now) < 2 ^ 32 }
    requires is_live { AreLive (block_values R.value pieces.now) }
    requires fewest { HaveComponents (block_values R.value pieces.now) fewest }
    ensures first { result ≡ position (λ s. is_covering s (R.value row.now)) (block_values R.value pieces.now) }
    ensures found { IfSome result (λ i. IsCoveringAt (block_values R.value pieces.now) i (R.value row.now)) }
    ensures none { IfNone result (HasCovering (block_values R.value pieces.now) (R.value row.now) → ⊥) }
{
    let mut guess = guess;
    place_or_cover(pieces, row, fewest, &mut guess).err()
}

// The first position whose row is the row or dominates it, among live rows, and where there is none, where the row
// goes in.
pub(crate) fn find<R: Row>(
    pieces: &[Piece<R>],
    row: &R,
    fewest: usize,
    guess: Guess,
) -> Result<u32, Guess>
    requires few { length (block_rows pieces.now) < 2 ^ 32 }
    requires is_live { AreLive (block_values R.value pieces.now) }
    requires fewest { HaveComponents (block_values R.value pieces.now) fewest }
    ensures first { IfOk result (λ by. position (λ s. is_covering s (R.value row.now)) (block_values R.value pieces.now) ≡ Some by) }
    ensures found { IfOk result (λ by. IsCoveringAt (block_values R.value pieces.now) by (R.value row.now)) }
    ensures free { IfErr result (λ guess. HasCovering (block_values R.value pieces.now) (R.value row.now) → ⊥) }
{
    let mut guess = guess;
    match place_or_cover(pieces, row, fewest, &mut guess) {
        Ok(_at) => Err(guess),
        Err(by) => Ok(by),
    }
}
