//! Blocks with where they start, what they add up to, and the leaves of their rows.

ghost use Rattle.std.specs.Prelude.{◌≡◌, ◌+◌, ◌^◌, ◌<◌, ◌≤◌, [], ◌∷◌, ◌++◌, length, map, take, Some, slice_get, MatchOption, IfOk, IfSome, OnOk, vec_len};
ghost use Rattle.willow_entry.specs.Row.{AreLive, IsRising};
ghost use Rattle.block_store.specs.Blocks.{block_rows, block_values, index_of, IsSpot};
ghost use Rattle.block_store.specs.Held.{rows_of, values_of};
ghost use Rattle.block_store.specs.Leaves.{row_leaf, summary_of};
ghost use Rattle.block_store.specs.Starts.{AreStarts, values_at};
ghost use Rattle.block_store.specs.Summaries.{summaries_of};

use crate::block::{Block, Piece};
use crate::changing::append;
use crate::looking::spot::Spot;
use crate::reading::summary::Summary;
use lane_sum::Leaf;
use std::alloc::Global;
use std::sync::Arc;
use willow_entry::Row;
use willow_path::NoMemory;

// Live rows in blocks, with the position of each block's first row and behind these the number of all rows, and with
// the summary of each block.
#[derive(Drop)]
pub(crate) struct Listing<R: Row> {
    pub(crate) pieces: Vec<Piece<R>>,
    pub(crate) starts: Vec<u32>,
    pub(crate) summaries: Vec<Summary>,
    ghost live: { AreLive (block_values R.value pieces.items) },
    ghost few: { length (block_rows pieces.items) < 2 ^ 32 },
    ghost placed: { AreStarts starts.items pieces.items },
    ghost summed: { summaries.items ≡ summaries_of R.value pieces.items },
}

// For each block the position of its first row, and behind these the number of all rows.
fn starts_of<R: Row>(alloc: Global, pieces: &[Piece<R>]) -> Result<Vec<u32>, NoMemory>
    requires { length (block_rows pieces.now) < 2 ^ 32 }
    ensures { IfOk result (λ starts. AreStarts starts.items pieces.now) }
{
    let mut starts = Vec::with_capacity(alloc, pieces.len())?;
    let mut at = 0;
    for i in 0..pieces.len() {
        starts.push(at)?;
        at += pieces[i].len;
    }
    starts.push(at)?;
    Ok(starts)
}

// Adds the summary of a block.
fn add_summary<R: Row>(summaries: &mut Vec<Summary>, piece: &Piece<R>) -> Result<(), NoMemory>
    ensures { OnOk result (summaries.new.items ≡ summaries.old.items ++ summary_of (values_of R.value piece.now.block.value.rows.items) ∷ []) }
{
    let summary = piece.block.summary()?;
    summaries.push(summary)?;
    Ok(())
}

// The summary of each block.
fn summaries_of<R: Row>(alloc: Global, pieces: &[Piece<R>]) -> Result<Vec<Summary>, NoMemory>
    ensures { IfOk result (λ summaries. summaries.items ≡ summaries_of R.value pieces.now) }
{
    let mut summaries = Vec::with_capacity(alloc, pieces.len())?;
    for i in 0..pieces.len() {
        add_summary(&mut summaries, &pieces[i])?;
    }
    Ok(summaries)
}

// Adds the same block, shared once more.
fn add_copy<R: Row>(copy: &mut Vec<Piece<R>>, piece: &Piece<R>) -> Result<(), NoMemory>
    ensures { OnOk result (block_rows copy.new.items ≡ block_rows copy.old.items ++ rows_of piece.now.block.value.rows.items) }
{
    let shared = append::share(piece)?;
    copy.push(shared)?;
    Ok(())
}

// The same blocks, shared once more.
fn share<R: Row>(alloc: Global, pieces: &[Piece<R>]) -> Result<Vec<Piece<R>>, NoMemory>
    ensures { IfOk result (λ copy. block_rows copy.items ≡ block_rows pieces.now) }
{
    let mut copy = Vec::with_capacity(alloc, pieces.len())?;
    for i in 0..pieces.len() {
        add_copy(&mut copy, &pieces[i])?;
    }
    Ok(copy)
}

// The listing of the blocks, which share their rows. A summary is made where no listing made it before.
pub(crate) fn listing_of<R: Row>(alloc: Global, pieces: &[Piece<R>]) -> Result<Listing<R>, NoMemory>
    requires live { AreLive (block_values R.value pieces.now) }
    requires few { length (block_rows pieces.now) < 2 ^ 32 }
    ensures { IfOk result (λ listing. block_rows listing.pieces.items ≡ block_rows pieces.now) }
{
    let pieces = share(alloc, pieces)?;
    let starts = starts_of(alloc, &pieces)?;
    let summaries = summaries_of(alloc, &pieces)?;
    Ok(Listing {
        pieces,
        starts,
        summaries,
    })
}

// The row of a block at this place; None exactly from the number of its rows on.
fn held_at<R: Row>(rows: &[Arc<R>], at: u32) -> Option<&Arc<R>>
    ensures { MatchOption result (length rows.now ≤ at) (λ held. slice_get (rows_of rows.now) at ≡ Some held.now.value) }
{
    rows.get(at as usize)
}

// The same row with its leaf.
fn told_at<'a, R: Row>(rows: &'a [Arc<R>], leaves: &'a [Leaf], at: u32) -> Option<(&'a R, &'a Leaf)>
    requires { leaves.now ≡ map row_leaf (values_of R.value rows.now) }
    ensures row { MatchOption result (length rows.now ≤ at) (λ found. slice_get (rows_of rows.now) at ≡ Some found.0.now) }
    ensures leaf { IfSome result (λ found. found.1.now ≡ row_leaf (R.value found.0.now)) }
{
    let held = held_at(rows, at)?;
    Some((&**held, &leaves[at as usize]))
}

impl<R: Row> Listing<R> {
    // The number of rows.
    pub(crate) fn len(&self) -> u32
        ensures { result ≡ length (block_rows self.now.pieces.items) }
    {
        self.starts[self.pieces.len()]
    }

    // The position of a spot.
    pub(crate) fn position(&self, spot: Spot) -> u32
        requires { IsSpot self.now.pieces.items spot }
        ensures position { result ≡ index_of self.now.pieces.items spot }
        ensures within { result ≤ length (block_rows self.now.pieces.items) }
    {
        self.starts[spot.block] + spot.row as u32
    }

    // The row at this position; None exactly from the number of rows on.
    pub(crate) fn get(&self, at: u32) -> Option<&R>
        ensures { MatchOption result (length (block_rows self.now.pieces.items) ≤ at) (λ row. slice_get (block_rows self.now.pieces.items) at ≡ Some row.now) }
    {
        let held = self.held(at)?;
        Some(&**held)
    }

    // The same row, shared once more.
    pub(crate) fn shared(&self, at: u32) -> Result<Option<Arc<R>>, NoMemory>
        ensures { IfOk result (λ found. MatchOption found (length (block_rows self.now.pieces.items) ≤ at) (λ row. slice_get (block_rows self.now.pieces.items) at ≡ Some row.value)) }
    {
        match self.held(at) {
            Some(held) => Ok(Some(held.clone()?)),
            None => Ok(None),
        }
    }

    // The row at this position with its `Arc`.
    fn held(&self, at: u32) -> Option<&Arc<R>>
        ensures { MatchOption result (length (block_rows self.now.pieces.items) ≤ at) (λ held. slice_get (block_rows self.now.pieces.items) at ≡ Some held.now.value) }
    {
        let block = self.block_at(at);
        let piece = self.pieces.get(block)?;
        held_at(&piece.block.rows, at - self.starts[block])
    }

    // The block of that number.
    pub(crate) fn block(&self, i: usize) -> &Block<R>
        requires { i < length self.now.pieces.items }
        ensures rows { values_of R.value result.now.rows.items ≡ values_at R.value self.now.pieces.items i }
        ensures rising { IsRising (values_at R.value self.now.pieces.items i) }
        ensures few { length (block_rows (take i self.now.pieces.items)) + length result.now.rows.items < 2 ^ 32 }
    {
        &*self.pieces[i].block
    }

    // The position of the first row of the block of that number.
    pub(crate) fn start(&self, i: usize) -> u32
        requires { i < length self.now.pieces.items }
        ensures { result ≡ length (block_rows (take i self.now.pieces.items)) }
    {
        self.starts[i]
    }

    // The row at this position with its leaf; None exactly from the number of rows on.
    pub(crate) fn told(&self, at: u32) -> Option<(&R, &Leaf)>
        ensures row { MatchOption result (length (block_rows self.now.pieces.items) ≤ at) (λ found. slice_get (block_rows self.now.pieces.items) at ≡ Some found.0.now) }
        ensures leaf { IfSome result (λ found. found.1.now ≡ row_leaf (R.value found.0.now)) }
    {
        let block = self.block_at(at);
        let piece = self.pieces.get(block)?;
        let leaves = self.summaries[block].leaves();
        told_at(&piece.block.rows, leaves, at - self.starts[block])
    }

    // The summary of the block of that number.
    pub(crate) fn summary(&self, i: usize) -> &Summary
        requires { i < length self.now.pieces.items }
        ensures { result.now ≡ summary_of (values_at R.value self.now.pieces.items i) }
    {
        &self.summaries[i]
    }

    // The last block that starts at most at this position, or the number of blocks from the number of rows on.
    fn block_at(&self, at: u32) -> usize
        ensures within { result ≤ length self.now.pieces.items }
        ensures from { length (block_rows (take result self.now.pieces.items)) ≤ at }
        ensures below { result < length self.now.pieces.items → at < length (block_rows (take (result + 1) self.now.pieces.items)) }
    {
        self.starts.partition_point(|start| *start <= at) - 1
    }
}
