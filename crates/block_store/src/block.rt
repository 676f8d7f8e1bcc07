//! A block: some of the rows, each behind an `Arc`, with what tells in short what is in it.

ghost use Rattle.std.specs.Prelude.{◌≡◌, ◌<◌, ◌≤◌, length, vec_len};
ghost use Rattle.block_store.specs.Held.{values_of};
ghost use Rattle.block_store.specs.Leaves.{summary_of};
ghost use Rattle.block_store.specs.Times.{AreWritten};

use crate::reading::summary::Summary;
use counted_slot::{Counted, Fits};
use std::marker::PhantomData;
use std::sync::Arc;
use willow_entry::Row;

// The greatest number of rows of a block.
pub(crate) const BLOCK_ROWS: usize = 64;

// What is kept of the rows of a block.
#[derive(Drop)]
pub(crate) struct Held<R: Row> {
    pub(crate) summary: Summary,
    pub(crate) marker: PhantomData<R>,
}

impl<R: Row> Fits for Held<R> {
    type Tag = Vec<Arc<R>>;

    ghost fits = { λ rows held. held.summary ≡ summary_of (values_of R.value rows.items) };
}

// From 1 to 64 rows, the earliest and the latest time at which they were written, and the cell of their summary,
// which is made at most when somebody compares.
#[derive(Drop)]
pub(crate) struct Block<R: Row> {
    pub(crate) rows: Vec<Arc<R>>,
    pub(crate) earliest: u64,
    pub(crate) latest: u64,
    pub(crate) cell: Counted<Option<Held<R>>>,
    ghost sized: { (0 < vec_len rows) × (vec_len rows ≤ 64) },
    ghost timed: { AreWritten earliest latest (values_of R.value rows.items) },
    ghost tied: { cell.items ≡ rows.items },
}

// A block with the number of its rows, so that a place is told without a look into each block.
#[derive(Drop)]
pub(crate) struct Piece<R: Row> {
    pub(crate) block: Arc<Block<R>>,
    pub(crate) len: u32,
    ghost counted: { len ≡ vec_len block.value.rows },
}
