//! A row is offered to live rows in blocks.

ghost use Rattle.std.specs.Prelude.{◌≡◌, ℕ, ◌+◌, ◌-◌, ◌^◌, ◌<◌, ◌≤◌, [], ◌∷◌, ◌++◌, length, map, take, drop, count_by, position, slice_get, Some, OnOk, OnErr, IfOk, if◌then◌else◌, vec_len};
ghost use Rattle.willow_entry.specs.Pruning.{IsPlace};
ghost use Rattle.willow_entry.specs.Row.{RowValue, AreLive, IsRising, HasCovering, is_dominating, live, place_cmp};
ghost use Rattle.willow_entry.specs.Placed.{IsPlaced, OnKept};
ghost use Rattle.block_store.specs.Blocks.{block_rows, block_values, index_of, IsSpot};
ghost use Rattle.block_store.specs.Packing.{IsPacked};
ghost use Rattle.block_store.specs.Counting.{rows_after};
ghost use Rattle.block_store.specs.Front.{HaveComponents};
ghost use Rattle.block_store.specs.Positions.{positions};

use crate::block::Piece;
use crate::changing::put::put;
use crate::changing::thin::prunes;
use crate::looking::guess::Guess;
use crate::looking::index::{index_of, next, row_at};
use crate::looking::place::{own_place, own_place_at, place_or_cover, run_end};
use crate::looking::spot::Spot;
use std::alloc::Global;
use std::sync::Arc;
use willow_entry::{Placed, Row};
use willow_path::NoMemory;

// The number of rows after one was offered.
pub(crate) fn rows_after(rows: u32, placed: Placed) -> u32
    requires { rows < 2 ^ 32 - 1 }
    ensures { result ≡ rows_after rows placed }
{
    match placed {
        Placed::Stored { pruned } => (rows + 1).saturating_sub(pruned),
        Placed::Kept { by: _ } => rows,
    }
}

// Stores a row that no row covers, and answers how many rows it dominates.
fn store_row<R: Row>(pieces: &mut Vec<Piece<R>>, held: Arc<R>, at: Spot) -> Result<u32, NoMemory>
    requires few { length (block_rows pieces.old.items) < 2 ^ 32 }
    requires is_live { AreLive (block_values R.value pieces.old.items) }
    requires uncovered { HasCovering (block_values R.value pieces.old.items) (R.value held.value) → ⊥ }
    requires spot { IsSpot pieces.old.items at }
    requires place { IsPlace place_cmp (R.value held.value) (block_values R.value pieces.old.items) (index_of pieces.old.items at) }
    ensures rows { OnOk result (block_values R.value pieces.new.items ≡ live (block_values R.value pieces.old.items ++ R.value held.value ∷ [])) }
    ensures pruned { IfOk result (λ pruned. pruned ≡ count_by (is_dominating (R.value held.value)) (block_values R.value pieces.old.items)) }
    ensures count { IfOk result (λ pruned. length (block_rows pieces.new.items) ≡ length (block_rows pieces.old.items) + 1 - pruned) }
    ensures packed { IsPacked pieces.old.items → IsPacked pieces.new.items }
    ensures err { OnErr result (block_rows pieces.new.items ≡ block_rows pieces.old.items) }
{
    let pruned = put(pieces, held, at)?;
    Ok(pruned as u32)
}

// The same, with what it means for the row.
fn store<R: Row>(pieces: &mut Vec<Piece<R>>, held: Arc<R>, at: Spot) -> Result<Placed, NoMemory>
    requires few { length (block_rows pieces.old.items) < 2 ^ 32 }
    requires is_live { AreLive (block_values R.value pieces.old.items) }
    requires uncovered { HasCovering (block_values R.value pieces.old.items) (R.value held.value) → ⊥ }
    requires spot { IsSpot pieces.old.items at }
    requires place { IsPlace place_cmp (R.value held.value) (block_values R.value pieces.old.items) (index_of pieces.old.items at) }
    ensures rows { OnOk result (block_values R.value pieces.new.items ≡ live (block_values R.value pieces.old.items ++ R.value held.value ∷ [])) }
    ensures placed { IfOk result (λ placed. IsPlaced (block_values R.value pieces.old.items) (R.value held.value) placed) }
    ensures stored { OnKept result ⊥ }
    ensures count { IfOk result (λ placed. length (block_rows pieces.new.items) ≡ rows_after (length (block_rows pieces.old.items)) placed) }
    ensures packed { IsPacked pieces.old.items → IsPacked pieces.new.items }
    ensures err { OnErr result (block_rows pieces.new.items ≡ block_rows pieces.old.items) }
{
    let pruned = store_row(pieces, held, at)?;
    Ok(Placed::Stored { pruned })
}

// Stores a row that no row covers, whose place is looked for first at a guess, and answers how many rows it dominates.
pub(crate) fn store_at<R: Row>(
    pieces: &mut Vec<Piece<R>>,
    held: Arc<R>,
    guess: Spot,
) -> Result<u32, NoMemory>
    requires few { length (block_rows pieces.old.items) < 2 ^ 32 }
    requires is_live { AreLive (block_values R.value pieces.old.items) }
    requires uncovered { HasCovering (block_values R.value pieces.old.items) (R.value held.value) → ⊥ }
    ensures rows { OnOk result (block_values R.value pieces.new.items ≡ live (block_values R.value pieces.old.items ++ R.value held.value ∷ [])) }
    ensures pruned { IfOk result (λ pruned. pruned ≡ count_by (is_dominating (R.value held.value)) (block_values R.value pieces.old.items)) }
    ensures count { IfOk result (λ pruned. length (block_rows pieces.new.items) ≡ length (block_rows pieces.old.items) + 1 - pruned) }
    ensures packed { IsPacked pieces.old.items → IsPacked pieces.new.items }
    ensures err { OnErr result (block_rows pieces.new.items ≡ block_rows pieces.old.items) }
{
    let at = own_place_at(pieces, &*held, guess);
    store_row(pieces, held, at)
}

// Keeps the rows where one of them covers the new row, and else puts it in its place. None has fewer components than
// `fewest`.
pub(crate) fn offer<R: Row>(
    pieces: &mut Vec<Piece<R>>,
    row: R,
    fewest: usize,
    guess: &mut Guess,
) -> Result<Placed, NoMemory>
    requires is_live { AreLive (block_values R.value pieces.old.items) }
    requires fewest { HaveComponents (block_values R.value pieces.old.items) fewest }
    requires room { length (block_rows pieces.old.items) < 2 ^ 32 - 1 }
    ensures rows { OnOk result (block_values R.value pieces.new.items ≡ live (block_values R.value pieces.old.items ++ R.value row ∷ [])) }
    ensures placed { IfOk result (λ placed. IsPlaced (block_values R.value pieces.old.items) (R.value row) placed) }
    ensures kept { OnKept result (pieces.new.items ≡ pieces.old.items) }
    ensures count { IfOk result (λ placed. length (block_rows pieces.new.items) ≡ rows_after (length (block_rows pieces.old.items)) placed) }
    ensures packed { IsPacked pieces.old.items → IsPacked pieces.new.items }
    ensures err { OnErr result (block_rows pieces.new.items ≡ block_rows pieces.old.items) }
{
    match place_or_cover(pieces, &row, fewest, guess) {
        Err(by) => Ok(Placed::Kept { by }),
        Ok(at) => {
            let held = Arc::new(*pieces.allocator(), row)?;
            store(pieces, held, at)
        }
    }
}

// The same of a row that others share.
pub(crate) fn offer_shared<R: Row>(
    pieces: &mut Vec<Piece<R>>,
    held: Arc<R>,
    fewest: usize,
    guess: &mut Guess,
) -> Result<Placed, NoMemory>
    requires is_live { AreLive (block_values R.value pieces.old.items) }
    requires fewest { HaveComponents (block_values R.value pieces.old.items) fewest }
    requires room { length (block_rows pieces.old.items) < 2 ^ 32 - 1 }
    ensures rows { OnOk result (block_values R.value pieces.new.items ≡ live (block_values R.value pieces.old.items ++ R.value held.value ∷ [])) }
    ensures placed { IfOk result (λ placed. IsPlaced (block_values R.value pieces.old.items) (R.value held.value) placed) }
    ensures kept { OnKept result (pieces.new.items ≡ pieces.old.items) }
    ensures count { IfOk result (λ placed. length (block_rows pieces.new.items) ≡ rows_after (length (block_rows pieces.old.items)) placed) }
    ensures packed { IsPacked pieces.old.items → IsPacked pieces.new.items }
    ensures err { OnErr result (block_rows pieces.new.items ≡ block_rows pieces.old.items) }
{
    match place_or_cover(pieces, &*held, fewest, guess) {
        Err(by) => Ok(Placed::Kept { by }),
        Ok(at) => store(pieces, held, at),
    }
}

// Adds a position where its row passes.
pub(crate) fn note(found: &mut Vec<u32>, at: u32, passes: bool) -> Result<(), NoMemory>
    ensures { OnOk result (found.new.items ≡ found.old.items ++ (if passes then at ∷ [] else [])) }
{
    if passes {
        found.push(at)?;
    }
    Ok(())
}

// Whether a row stands at the spot that goes where the row is stored.
fn prunes_at<R: Row>(pieces: &[Piece<R>], row: &R, at: Spot) -> bool
    requires { IsSpot pieces.now at }
    ensures { (s : RowValue) → slice_get (block_values R.value pieces.now) (index_of pieces.now at) ≡ Some s → result ≡ is_dominating (R.value row.now) s }
{
    match row_at(pieces, at) {
        Some(held) => prunes(row, held),
        None => false,
    }
}

// The positions, rising, of the rows that the row dominates, whose place is looked for first right behind a guess.
pub(crate) fn dominated<R: Row>(
    alloc: Global,
    pieces: &[Piece<R>],
    row: &R,
    guess: Guess,
) -> Result<Vec<u32>, NoMemory>
    requires rising { IsRising (block_values R.value pieces.now) }
    requires few { length (block_rows pieces.now) < 2 ^ 32 }
    ensures { IfOk result (λ found. found.items ≡ positions (is_dominating (R.value row.now)) (block_values R.value pieces.now)) }
{
    let at = own_place(pieces, row, guess.own);
    dominated_from(alloc, pieces, row, at)
}

// The same, looked for first at a guess.
pub(crate) fn dominated_at<R: Row>(
    alloc: Global,
    pieces: &[Piece<R>],
    row: &R,
    guess: Guess,
) -> Result<Vec<u32>, NoMemory>
    requires rising { IsRising (block_values R.value pieces.now) }
    requires few { length (block_rows pieces.now) < 2 ^ 32 }
    ensures { IfOk result (λ found. found.items ≡ positions (is_dominating (R.value row.now)) (block_values R.value pieces.now)) }
{
    let at = own_place_at(pieces, row, guess.own);
    dominated_from(alloc, pieces, row, at)
}

// The same where the row's place is known.
fn dominated_from<R: Row>(
    alloc: Global,
    pieces: &[Piece<R>],
    row: &R,
    at: Spot,
) -> Result<Vec<u32>, NoMemory>
    requires rising { IsRising (block_values R.value pieces.now) }
    requires few { length (block_rows pieces.now) < 2 ^ 32 }
    requires spot { IsSpot pieces.now at }
    requires place { IsPlace place_cmp (R.value row.now) (block_values R.value pieces.now) (index_of pieces.now at) }
    ensures { IfOk result (λ found. found.items ≡ positions (is_dominating (R.value row.now)) (block_values R.value pieces.now)) }
{
    let mut spot = at;
    let end = run_end(pieces, row, spot);
    let mut found = Vec::new(alloc);
    for at in index_of(pieces, spot)..index_of(pieces, end) {
        note(&mut found, at as u32, prunes_at(pieces, row, spot))?;
        spot = next(pieces, spot);
    }
    Ok(found)
}
