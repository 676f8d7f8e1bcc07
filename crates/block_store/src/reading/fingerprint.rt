//! What the rows that a box includes add up to.

ghost use Rattle.std.specs.Prelude.{◌≡◌, ◌+◌, ◌<◌, ◌≤◌, [], ◌∷◌, length, map, IsTrue};
ghost use Rattle.lane_sum.specs.Totals.{total_by};
ghost use Rattle.willow_entry.specs.Row.{IsRising};
ghost use Rattle.block_store.specs.Blocks.{block_rows, block_values};
ghost use Rattle.block_store.specs.BoxKinds.{IsOfOneNamespace, IsOneRun};
ghost use Rattle.block_store.specs.BoxRuns.{IsRunOf};
ghost use Rattle.block_store.specs.Fingerprint.{row_bytes};
ghost use Rattle.block_store.specs.Held.{values_of};
ghost use Rattle.block_store.specs.InBox.{rows_in};
ghost use Rattle.block_store.specs.Leaves.{row_leaf, summary_of};
ghost use Rattle.block_store.specs.Starts.{values_at};

use crate::block::Block;
use crate::reading::boxes::{block_behind, is_apart, is_in, lies_in};
use crate::reading::listing::Listing;
use crate::reading::runs::{Run, run_of};
use crate::reading::summary::Summary;
use lane_sum::{Lanes, Leaf};
use std::sync::Arc;
use std::sync::ledger::Ledger;
use step_count::Steps;
use willow_area::Box3;
use willow_entry::Row;

// The leaf of a row where the box includes it, and else the total of no row. To take a leaf is a step.
pub(crate) fn leaf_if_in<R: Row, L: Ledger>(
    row: &R,
    leaf: &Leaf,
    area: &Box3,
    steps: &mut Steps<L>,
) -> Lanes
    requires { leaf.now ≡ row_leaf (R.value row.now) }
    ensures total { result ≡ total_by row_bytes (rows_in area.now (R.value row.now ∷ [])) }
    ensures steps { steps.new ≤ steps.old + 1 }
{
    if is_in(row, area) {
        steps.tick();
        leaf.total()
    } else {
        Lanes::zero()
    }
}

// The total of the rows that the box includes, of which each leaf is taken once.
fn total_in_rows<R: Row, L: Ledger>(
    rows: &[Arc<R>],
    leaves: &[Leaf],
    area: &Box3,
    steps: &mut Steps<L>,
) -> Lanes
    requires { leaves.now ≡ map row_leaf (values_of R.value rows.now) }
    ensures total { result ≡ total_by row_bytes (rows_in area.now (values_of R.value rows.now)) }
    ensures steps { steps.new ≤ steps.old + length rows.now }
{
    let mut total = Lanes::zero();
    for at in 0..rows.len() {
        let part = leaf_if_in(&*rows[at], &leaves[at], area, steps);
        total = total.add(&part);
    }
    total
}

// The total of the rows of a block that the box includes: the block's own where it lies in the box, and else it is made of
// its rows' leaves.
fn total_in_block<R: Row, L: Ledger>(
    block: &Block<R>,
    summary: &Summary,
    area: &Box3,
    steps: &mut Steps<L>,
) -> Lanes
    requires rising { IsRising (values_of R.value block.now.rows.items) }
    requires own { summary.now ≡ summary_of (values_of R.value block.now.rows.items) }
    ensures total { result ≡ total_by row_bytes (rows_in area.now (values_of R.value block.now.rows.items)) }
    ensures steps { steps.new ≤ steps.old + length block.now.rows.items }
{
    if is_apart(block, area) {
        Lanes::zero()
    } else if lies_in(block, area) {
        *summary.total()
    } else {
        total_in_rows(&block.rows, summary.leaves(), area, steps)
    }
}

// Whether the block is one of those between the ends of an exact run, all of whose rows are in the box.
fn is_between(run: &Run, block: usize) -> bool
    ensures inside { IsTrue result → IsTrue run.now.exact × (run.now.from.block < block) × (block < run.now.to.block) }
    ensures all { IsTrue run.now.exact → run.now.from.block < block → block < run.now.to.block → IsTrue result }
{
    run.exact && run.from.block < block && block < run.to.block
}

// The total of the rows of the block of that number that the box includes. No leaf is taken of those between the ends
// of an exact run.
fn total_at<R: Row, L: Ledger>(
    listing: &Listing<R>,
    area: &Box3,
    run: &Run,
    i: usize,
    steps: &mut Steps<L>,
) -> Lanes
    requires run { IsRunOf R.value area.now listing.now.pieces.items run.now }
    requires within { i < length listing.now.pieces.items }
    ensures total { result ≡ total_by row_bytes (rows_in area.now (values_at R.value listing.now.pieces.items i)) }
    ensures steps { steps.new ≤ steps.old + length (values_at R.value listing.now.pieces.items i) }
    ensures few { steps.new ≤ steps.old + 64 }
    ensures none { IsTrue run.now.exact → run.now.from.block < i → i < run.now.to.block → steps.new ≡ steps.old }
{
    if is_between(run, i) {
        *listing.summary(i).total()
    } else {
        total_in_block(listing.block(i), listing.summary(i), area, steps)
    }
}

// The total of the rows that the box includes.
pub(crate) fn total_in<R: Row, L: Ledger>(
    listing: &Listing<R>,
    area: &Box3,
    steps: &mut Steps<L>,
) -> Lanes
    ensures total { result ≡ total_by row_bytes (rows_in area.now (block_values R.value listing.now.pieces.items)) }
    ensures steps { steps.new ≤ steps.old + length (block_rows listing.now.pieces.items) }
    ensures few { IsOneRun area.now → IsOfOneNamespace (block_values R.value listing.now.pieces.items) → steps.new ≤ steps.old + 128 }
{
    let run = run_of(listing, area);
    let mut total = Lanes::zero();
    for i in run.from.block..block_behind(listing, area, &run) {
        let part = total_at(listing, area, &run, i, steps);
        total = total.add(&part);
    }
    total
}
