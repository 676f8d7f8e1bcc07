//! The store: live rows by rising place, in blocks that snapshots share.

ghost use Rattle.std.specs.Prelude.{◌≡◌, ◌↔◌, ℕ, ◌+◌, ◌-◌, ◌^◌, ◌<◌, ◌≤◌, [], ◌∷◌, ◌++◌, length, map, count_by, position, slice_get, OnOk, OnErr, IfOk, IfErr, IsTrue, IfSome, IfNone, MatchOption, Some};
ghost use Rattle.willow_entry.specs.Row.{AreLive, HasCovering, IsCoveringAt, is_dominating, is_covering, live};
ghost use Rattle.willow_entry.specs.Placed.{IsPlaced, OnKept};
ghost use Rattle.block_store.specs.Positions.{positions};

use crate::block::Piece;
use crate::changing::offer::{dominated, dominated_at, offer, offer_shared, rows_after, store_at};
use crate::looking::guess::{GUESSES, Guess, slot_of};
use crate::looking::hint::Hint;
use crate::looking::index::{row_at, spot_of};
use crate::looking::place::{cover, find};
use crate::reading::rows::{Rows, rows_of};
use crate::reading::snapshot::{Snapshot, snapshot_of};
use std::alloc::Global;
use std::marker::Model;
use std::sync::Arc;
use std::sync::atomic::{AtomicUsize, Ordering};
use willow_entry::{MAX_ROWS, Placed, Row};
use willow_path::NoMemory;

/// The live rows of what was ingested, by rising place. A contract sees the list of the rows.
#[derive(Drop)]
pub struct BlockStore<R: Row> {
    pieces: Vec<Piece<R>>,
    rows: u32,
    // No row has a path of fewer components.
    fewest: usize,
    // Where the next rows may stand, by the subspace.
    guesses: [Guess; GUESSES],
}

impl<R: Row> Model for BlockStore<R> {
    ghost use Rattle.std.specs.Prelude.{◌≡◌, ◌<◌, ◌^◌, List, map, length};
    ghost use Rattle.block_store.specs.Blocks.{block_rows};
    ghost use Rattle.block_store.specs.Front.{HaveComponents};
    ghost use Rattle.block_store.specs.Packing.{IsPacked};

    ghost Value = { List R };

    ghost view = { λ s. block_rows s.pieces.items };

    ghost use Rattle.willow_entry.specs.Row.{AreLive};

    ghost invariant = { λ s. AreLive (map R.value (block_rows s.pieces.items)) × (s.rows ≡ length (block_rows s.pieces.items)) × (length (block_rows s.pieces.items) < 2 ^ 32) × IsPacked s.pieces.items
        × HaveComponents (map R.value (block_rows s.pieces.items)) s.fewest };
}

impl<R: Row> BlockStore<R> {
    /// The store without rows.
    pub fn new(alloc: Global) -> BlockStore<R>
        ensures empty { result ≡ [] }
    {
        BlockStore {
            pieces: Vec::new(alloc),
            rows: 0,
            fewest: usize::MAX,
            guesses: [Guess::at_begin(); GUESSES],
        }
    }

    /// Whether the store has no room for another row: it has 2^32 - 1.
    pub fn is_full(&self) -> bool
        ensures { IsTrue result ↔ (2 ^ 32 - 1 ≤ length self.now) }
    {
        self.rows as usize >= MAX_ROWS
    }

    /// Offers a row. Where a row equals or dominates it, nothing changes and the answer names such a
    /// row; else the row is stored, and the rows that it dominates go. Either way the rows are then what is
    /// live of the old rows with the new one added. An error leaves the store as it was.
    pub fn ingest(&mut self, row: R) -> Result<Placed, NoMemory>
        requires { length self.old < 2 ^ 32 - 1 }
        ensures rows { OnOk result (map R.value self.new ≡ live (map R.value self.old ++ R.value row ∷ [])) }
        ensures placed { IfOk result (λ placed. IsPlaced (map R.value self.old) (R.value row) placed) }
        ensures kept { OnKept result (self.new ≡ self.old) }
        ensures few { length self.new ≤ length self.old + 1 }
        ensures live { AreLive (map R.value self.new) }
        ensures was_live { AreLive (map R.value self.old) }
        ensures err { OnErr result (self.new ≡ self.old) }
    {
        let (count, slot) = (row.entry().path.count(), slot_of(&row));
        let mut guess = self.guesses[slot];
        let placed = offer(&mut self.pieces, row, self.fewest, &mut guess)?;
        self.guesses[slot] = guess;
        self.rows = rows_after(self.rows, placed);
        self.fewest = self.fewest.min(count);
        Ok(placed)
    }

    /// The same for a row that others share: it stays in memory once.
    pub fn ingest_shared(&mut self, row: Arc<R>) -> Result<Placed, NoMemory>
        requires { length self.old < 2 ^ 32 - 1 }
        ensures rows { OnOk result (map R.value self.new ≡ live (map R.value self.old ++ R.value row.value ∷ [])) }
        ensures placed { IfOk result (λ placed. IsPlaced (map R.value self.old) (R.value row.value) placed) }
        ensures kept { OnKept result (self.new ≡ self.old) }
        ensures few { length self.new ≤ length self.old + 1 }
        ensures live { AreLive (map R.value self.new) }
        ensures was_live { AreLive (map R.value self.old) }
        ensures err { OnErr result (self.new ≡ self.old) }
    {
        let (count, slot) = ((*row).entry().path.count(), slot_of(&*row));
        let mut guess = self.guesses[slot];
        let placed = offer_shared(&mut self.pieces, row, self.fewest, &mut guess)?;
        self.guesses[slot] = guess;
        self.rows = rows_after(self.rows, placed);
        self.fewest = self.fewest.min(count);
        Ok(placed)
    }

    /// The first position whose row equals or dominates the row, or, where there is none, where the row goes in. With
    /// that `pruned_at` and `ingest_at` need no further search.
    pub fn search(&self, row: &R) -> Result<u32, Hint>
        ensures first { IfOk result (λ by. position (λ s. is_covering s (R.value row.now)) (map R.value self.now) ≡ Some by) }
        ensures found { IfOk result (λ by. IsCoveringAt (map R.value self.now) by (R.value row.now)) }
        ensures free { IfErr result (λ hint. HasCovering (map R.value self.now) (R.value row.now) → ⊥) }
    {
        match find(&self.pieces, row, self.fewest, self.guesses[slot_of(row)]) {
            Ok(by) => Ok(by),
            Err(guess) => Err(Hint { guess }),
        }
    }

    /// The positions, rising, of the rows that the row dominates, as `pruned_by` tells them.
    pub fn pruned_at(&self, row: &R, hint: Hint) -> Result<Vec<u32>, NoMemory>
        ensures { IfOk result (λ found. found.items ≡ positions (is_dominating (R.value row.now)) (map R.value self.now)) }
    {
        dominated_at(*self.pieces.allocator(), &self.pieces, row, hint.guess)
    }

    /// Stores a shared row that no row equals or dominates, and answers how many rows it dominates, which go. The rows
    /// are then what is live of the old rows with the new one added. An error leaves the store as it was.
    pub fn ingest_at(&mut self, row: Arc<R>, hint: Hint) -> Result<u32, NoMemory>
        requires room { length self.old < 2 ^ 32 - 1 }
        requires uncovered { HasCovering (map R.value self.old) (R.value row.value) → ⊥ }
        ensures rows { OnOk result (map R.value self.new ≡ live (map R.value self.old ++ R.value row.value ∷ [])) }
        ensures pruned { IfOk result (λ pruned. pruned ≡ count_by (is_dominating (R.value row.value)) (map R.value self.old)) }
        ensures few { length self.new ≤ length self.old + 1 }
        ensures live { AreLive (map R.value self.new) }
        ensures was_live { AreLive (map R.value self.old) }
        ensures err { OnErr result (self.new ≡ self.old) }
    {
        let (count, slot) = ((*row).entry().path.count(), slot_of(&*row));
        let pruned = store_at(&mut self.pieces, row, hint.guess.own)?;
        self.guesses[slot] = hint.guess;
        self.rows = rows_after(self.rows, Placed::Stored { pruned });
        self.fewest = self.fewest.min(count);
        Ok(pruned)
    }

    /// The number of rows.
    pub fn len(&self) -> u32
        ensures { result ≡ length self.now }
    {
        self.rows
    }

    /// The row at this position, counted from 0; None exactly from the length on.
    pub fn get(&self, at: u32) -> Option<&R>
        ensures row { MatchOption result (length self.now ≤ at) (λ row. slice_get self.now at ≡ Some row.now) }
        ensures live { AreLive (map R.value self.now) }
    {
        row_at(&self.pieces, spot_of(&self.pieces, at as usize))
    }

    /// The first position whose row equals or dominates the row; None exactly where there is none.
    pub fn covered_by(&self, row: &R) -> Option<u32>
        ensures first { result ≡ position (λ s. is_covering s (R.value row.now)) (map R.value self.now) }
        ensures found { IfSome result (λ i. IsCoveringAt (map R.value self.now) i (R.value row.now)) }
        ensures none { IfNone result (HasCovering (map R.value self.now) (R.value row.now) → ⊥) }
    {
        cover(&self.pieces, row, self.fewest, self.guesses[slot_of(row)])
    }

    /// The positions, rising, of the rows that the row dominates.
    pub fn pruned_by(&self, row: &R) -> Result<Vec<u32>, NoMemory>
        ensures { IfOk result (λ found. found.items ≡ positions (is_dominating (R.value row.now)) (map R.value self.now)) }
    {
        dominated(
            *self.pieces.allocator(),
            &self.pieces,
            row,
            self.guesses[slot_of(row)],
        )
    }

    /// The rows, one after the other, as they are now. No row is copied, and none is added up.
    pub fn rows(&self) -> Rows<'_, R>
        ensures rows { result ≡ self.now }
        ensures live { AreLive (map R.value self.now) }
    {
        rows_of(&self.pieces)
    }

    /// Hashes the rows of blocks that no snapshot had before, for the next one. The counter, 0 at first, tells how many of
    /// the blocks are taken: calls that share it, in threads too, part the blocks among them. What memory lacks for is
    /// left to the snapshot.
    pub fn hash_rows(&self, taken: &AtomicUsize) {
        for _turn in 0..self.pieces.len() {
            let Some(piece) = self.pieces.get(taken.fetch_add(1, Ordering::SeqCst)) else {
                return;
            };
            let _made = piece.block.summary();
        }
    }

    /// The rows as they are now. No row is copied, and nothing that becomes of the store changes the snapshot. Rows of
    /// blocks that no snapshot had before are hashed; their leaves are kept, 32 bytes a row.
    pub fn snapshot(&self) -> Result<Snapshot<R>, NoMemory>
        ensures equal { IfOk result (λ snapshot. snapshot ≡ self.now) }
        ensures live { AreLive (map R.value self.now) }
    {
        snapshot_of(*self.pieces.allocator(), &self.pieces)
    }
}
