//! A store as one list of its rows.

ghost use Rattle.std.specs.Prelude.{◌≡◌, ◌↔◌, ◌+◌, ◌-◌, ◌^◌, ◌<◌, ◌≤◌, [], ◌∷◌, ◌++◌, length, map, filter, not, position, Some, None, OnOk, OnErr, IfOk, IsTrue, count_by, vec_len, vec_capacity};
ghost use Rattle.willow_entry.specs.Pruning.{IsPlace};
ghost use Rattle.willow_entry.specs.Row.{RowValue, AreLive, IsRising, HasCovering, is_dominating, is_covering, left_of, place_cmp, live};
ghost use Rattle.willow_entry.specs.Placed.{IsPlaced, OnKept};

use std::alloc::Global;
use std::cmp::Ordering;
use std::marker::Model;
use willow_entry::{MAX_ROWS, Placed, Row, by_place, cover, dominates};
use willow_path::NoMemory;

// The number of rows that stand below the row's place.
fn place<R: Row>(rows: &[R], row: &R) -> usize
    requires { IsRising (map R.value rows.now) }
    ensures place { IsPlace place_cmp (R.value row.now) (map R.value rows.now) result }
    ensures bound { result ≤ length rows.now }
{
    rows.partition_point(|held| by_place(held, row) == Ordering::Less)
}

// Drops the rows that the row dominates, and counts them.
fn prune<R: Row>(rows: &mut Vec<R>, row: &R) -> usize
    ensures left { map R.value rows.new.items ≡ left_of (R.value row.now) (map R.value rows.old.items) }
    ensures pruned { result ≡ count_by (λ s. is_dominating (R.value row.now) s) (map R.value rows.old.items) }
    ensures fits { result ≤ vec_len rows.old }
    ensures fewer { vec_len rows.new ≤ vec_len rows.old }
    ensures capacity { vec_capacity rows.new ≡ vec_capacity rows.old }
{
    let before = rows.len();
    rows.retain(|held| !dominates(row, held));
    before - rows.len()
}

// Puts an uncovered row in its place among the live rows that it does not dominate, and counts the others.
fn put<R: Row>(rows: &mut Vec<R>, row: R) -> Result<usize, NoMemory>
    requires is_live { AreLive (map R.value rows.old.items) }
    requires uncovered { HasCovering (map R.value rows.old.items) (R.value row) → ⊥ }
    ensures rows { OnOk result (map R.value rows.new.items ≡ live (map R.value rows.old.items ++ R.value row ∷ [])) }
    ensures pruned { IfOk result (λ pruned. pruned ≡ count_by (λ s. is_dominating (R.value row) s) (map R.value rows.old.items)) }
    ensures fits { IfOk result (λ pruned. pruned ≤ vec_len rows.old) }
    ensures few { vec_len rows.new ≤ vec_len rows.old + 1 }
    ensures is_live { AreLive (map R.value rows.new.items) }
    ensures err { OnErr result (rows.new.items ≡ rows.old.items) }
{
    rows.reserve(1)?;
    let pruned = prune(rows, &row);
    let at = place(rows, &row);
    rows.insert(at, row)?;
    Ok(pruned)
}

// Keeps the rows where one of them covers the new row, and else puts it in its place.
fn offer<R: Row>(rows: &mut Vec<R>, row: R) -> Result<Placed, NoMemory>
    requires is_live { AreLive (map R.value rows.old.items) }
    requires room { vec_len rows.old < 2 ^ 32 - 1 }
    ensures rows { OnOk result (map R.value rows.new.items ≡ live (map R.value rows.old.items ++ R.value row ∷ [])) }
    ensures placed { IfOk result (λ placed. IsPlaced (map R.value rows.old.items) (R.value row) placed) }
    ensures kept { OnKept result (rows.new.items ≡ rows.old.items) }
    ensures few { vec_len rows.new ≤ vec_len rows.old + 1 }
    ensures is_live { AreLive (map R.value rows.new.items) }
    ensures err { OnErr result (rows.new.items ≡ rows.old.items) }
{
    match cover(rows, &row) {
        Some(by) => Ok(Placed::Kept { by: by as u32 }),
        None => {
            let pruned = put(rows, row)?;
            Ok(Placed::Stored {
                pruned: pruned as u32,
            })
        }
    }
}

/// The live rows of what was ingested, by rising place. A contract sees the list of the rows.
#[derive(Drop)]
pub struct FlatStore<R: Row> {
    rows: Vec<R>,
}

impl<R: Row> Model for FlatStore<R> {
    ghost use Rattle.std.specs.Prelude.{List, map};

    ghost Value = { List R };

    ghost view = { λ s. s.rows.items };

    ghost use Rattle.willow_entry.specs.Row.{AreLive};

    ghost invariant = { λ s. AreLive (map R.value s.rows.items) };
}

impl<R: Row> FlatStore<R> {
    /// The store without rows.
    pub fn new(alloc: Global) -> FlatStore<R>
        ensures empty { result ≡ [] }
    {
        FlatStore {
            rows: Vec::new(alloc),
        }
    }

    /// The rows, by rising place.
    pub fn rows(&self) -> &[R]
        ensures rows { result.now ≡ self.now }
        ensures live { AreLive (map R.value self.now) }
    {
        &self.rows
    }

    /// Whether the store has no room for another row: it has 2^32 - 1.
    pub fn is_full(&self) -> bool
        ensures { IsTrue result ↔ (2 ^ 32 - 1 ≤ length self.now) }
    {
        self.rows.len() >= MAX_ROWS
    }

    /// Offers a row. Where a row equals or dominates it, nothing changes and the answer names such a
    /// row; else the row is stored, and the rows that it dominates go. Either way the rows are then what is
    /// live of the old rows with the new one added. An error leaves the store as it was.
    pub fn ingest(&mut self, row: R) -> Result<Placed, NoMemory>
        requires { length self.old < 2 ^ 32 - 1 }
        ensures rows { OnOk result (map R.value self.new ≡ live (map R.value self.old ++ R.value row ∷ [])) }
        ensures placed { IfOk result (λ placed. IsPlaced (map R.value self.old) (R.value row) placed) }
        ensures kept { OnKept result (self.new ≡ self.old) }
        ensures few { length self.new ≤ length self.old + 1 }
        ensures live { AreLive (map R.value self.new) }
        ensures was_live { AreLive (map R.value self.old) }
        ensures err { OnErr result (self.new ≡ self.old) }
    {
        offer(&mut self.rows, row)
    }
}
