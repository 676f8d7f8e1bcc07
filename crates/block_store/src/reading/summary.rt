//! What is kept of the rows of a block: their total, and the leaf of each. Both are made when they are first asked for, and
//! kept for all who share the block. So whoever adds up some rows of a block alone hashes none of them again.

ghost use Rattle.std.specs.Prelude.{◌≡◌, List, ◌++◌, map, IfOk, IfSome, OnOk};
ghost use Rattle.lane_sum.specs.Totals.{told, total_by};
ghost use Rattle.lane_sum.specs.declared.lanes.Lanes.{Lanes};
ghost use Rattle.willow_entry.specs.Row.{RowValue};
ghost use Rattle.block_store.specs.Fingerprint.{row_bytes};
ghost use Rattle.block_store.specs.Held.{values_of};
ghost use Rattle.block_store.specs.Leaves.{row_leaf, summary_of};

use crate::block::{Block, Held};
use counted_slot::{Counted, FREE, ONE_READER, PRESENT, TAKEN};
use lane_sum::{Lanes, Leaf};
use sha_lanes::Message;
use std::alloc::Global;
use std::marker::{Model, PhantomData};
use std::sync::Arc;
use willow_entry::Row;
use willow_path::NoMemory;

// The total of rows, and the leaf of each, which is shared. A contract sees these two.
#[derive(Drop)]
pub(crate) struct Summary {
    total: Lanes,
    leaves: Arc<Vec<Leaf>>,
}

impl Model for Summary {
    ghost use Rattle.std.specs.Prelude.{List};
    ghost use Rattle.lane_sum.specs.declared.lanes.Lanes.{Lanes};

    ghost Value = { Lanes × List Lanes };

    ghost view = { λ s. (s.total, s.leaves.value.items) };
}

impl Summary {
    // The total.
    pub(crate) fn total(&self) -> &Lanes
        ensures { result.now ≡ self.now.0 }
    {
        &self.total
    }

    // The leaf of each row.
    pub(crate) fn leaves(&self) -> &[Leaf]
        ensures { result.now ≡ self.now.1 }
    {
        &**self.leaves
    }

    // The same, whose leaves are shared once more.
    fn share(&self) -> Result<Summary, NoMemory>
        ensures { IfOk result (λ summary. summary ≡ self.now) }
    {
        let leaves = self.leaves.clone()?;
        Ok(Summary {
            total: self.total,
            leaves,
        })
    }
}

// The summary, where one is held and it can be shared.
fn held_summary<R: Row>(held: &Option<Held<R>>) -> Option<Summary>
    ensures { (kept : Lanes × List Lanes) → IfSome held.now (λ h. h.summary ≡ kept) → IfSome result (λ summary. summary ≡ kept) }
{
    match held {
        Some(held) => held.summary.share().ok(),
        None => None,
    }
}

// The summary, where it stands in the cell and no thread is about to change the cell.
fn seen<R: Row>(cell: &Counted<Option<Held<R>>>) -> Option<Summary>
    ensures { IfSome result (λ summary. summary ≡ summary_of (values_of R.value cell.now.items)) }
{
    let word = cell.load();
    if word != PRESENT {
        return None;
    }
    let (found, claim) = cell.turn(PRESENT, PRESENT + ONE_READER);
    if found != PRESENT {
        claim.done();
        return None;
    }
    let summary = held_summary(claim.get());
    claim.leave();
    summary
}

// Keeps the summary where none stands there.
fn keep<R: Row>(cell: &Counted<Option<Held<R>>>, summary: Summary)
    requires { summary ≡ summary_of (values_of R.value cell.now.items) }
{
    let (found, claim) = cell.turn(FREE, TAKEN);
    if found != FREE {
        claim.done();
        return;
    }
    let _none = claim.put(
        Some(Held {
            summary,
            marker: PhantomData,
        }),
        PRESENT,
    );
}

// The leaf of a row.
fn leaf<R: Row>(row: &R) -> Leaf
    ensures { result ≡ row_leaf (R.value row.now) }
{
    Leaf::new(row.entry_bytes(), row.token_bytes())
}

// What a row is told by, as a message: its leaf is the digest of that.
fn message_of<R: Row>(row: &R) -> Message<'_>
    ensures { told result ≡ row_bytes (R.value row.now) }
{
    Message {
        front: row.entry_bytes(),
        rest: row.token_bytes(),
    }
}

// The leaves of four rows, which are hashed side by side.
fn four_leaves<R: Row>(rows: &[Arc<R>; 4]) -> [Leaf; 4]
    ensures { result ≡ map row_leaf (values_of R.value rows.now) }
{
    Leaf::four(
        &message_of(&*rows[0]),
        &message_of(&*rows[1]),
        &message_of(&*rows[2]),
        &message_of(&*rows[3]),
    )
}

// Adds the leaf of each row, four at a time.
fn add_leaves<R: Row>(leaves: &mut Vec<Leaf>, rows: &[Arc<R>]) -> Result<(), NoMemory>
    ensures { OnOk result (leaves.new.items ≡ leaves.old.items ++ map row_leaf (values_of R.value rows.now)) }
{
    match rows.split_first_chunk::<4>() {
        Some((four, behind)) => {
            leaves.extend_from_slice(&four_leaves(four))?;
            add_leaves(leaves, behind)
        }
        None => add_few_leaves(leaves, rows),
    }
}

// Adds the leaf of each row, one at a time.
fn add_few_leaves<R: Row>(leaves: &mut Vec<Leaf>, rows: &[Arc<R>]) -> Result<(), NoMemory>
    ensures { OnOk result (leaves.new.items ≡ leaves.old.items ++ map row_leaf (values_of R.value rows.now)) }
{
    for at in 0..rows.len() {
        leaves.push(leaf(&*rows[at]))?;
    }
    Ok(())
}

// What the leaves of rows add up to.
fn sum_of(leaves: &[Leaf]) -> Lanes
    ensures { (rows : List RowValue) → leaves.now ≡ map row_leaf rows → result ≡ total_by row_bytes rows }
{
    let mut total = Lanes::zero();
    for at in 0..leaves.len() {
        total = total.add(&leaves[at].total());
    }
    total
}

// The summary of rows, of which each is read.
fn summary_of<R: Row>(alloc: Global, rows: &[Arc<R>]) -> Result<Summary, NoMemory>
    ensures { IfOk result (λ summary. summary ≡ summary_of (values_of R.value rows.now)) }
{
    let mut leaves = Vec::with_capacity(alloc, rows.len())?;
    add_leaves(&mut leaves, rows)?;
    let total = sum_of(&leaves);
    Ok(Summary {
        total,
        leaves: Arc::new(alloc, leaves)?,
    })
}

impl<R: Row> Block<R> {
    // The summary of the rows. It is made at the first call, and kept.
    pub(crate) fn summary(&self) -> Result<Summary, NoMemory>
        ensures { IfOk result (λ summary. summary ≡ summary_of (values_of R.value self.now.rows.items)) }
    {
        match seen(&self.cell) {
            Some(summary) => Ok(summary),
            None => {
                let summary = summary_of(*self.rows.allocator(), &self.rows)?;
                keep(&self.cell, summary.share()?);
                Ok(summary)
            }
        }
    }
}
