//! The rows that a box includes, listed by one walk along the blocks.

ghost use Rattle.std.specs.Prelude.{◌≡◌, ◌+◌, ◌^◌, ◌<◌, ◌++◌, true, length, IfOk, OnOk, IsTrue};
ghost use Rattle.willow_entry.specs.Row.{IsRising};
ghost use Rattle.block_store.specs.Blocks.{block_values};
ghost use Rattle.block_store.specs.Positions.{positions_from, positions};
ghost use Rattle.block_store.specs.Held.{values_of};
ghost use Rattle.block_store.specs.InBox.{is_in, rows_in};

use crate::block::Block;
use crate::changing::offer::note;
use crate::reading::boxes::{block_behind, is_apart, is_in, lies_in};
use crate::reading::listing::Listing;
use crate::reading::runs::run_of;
use std::alloc::Global;
use std::sync::Arc;
use willow_area::Box3;
use willow_entry::Row;
use willow_path::NoMemory;

// Whether the box includes the row. It is not looked at where the box is known to include it.
fn passes<R: Row>(row: &R, area: &Box3, known: bool) -> bool
    requires { IsTrue known → is_in area.now (R.value row.now) ≡ true }
    ensures { result ≡ is_in area.now (R.value row.now) }
{
    if known { true } else { is_in(row, area) }
}

// Adds the positions of the rows that the box includes, where the first of them stands at the position. None is looked
// at where all are known to be in the box.
fn note_rows<R: Row>(
    found: &mut Vec<u32>,
    start: u32,
    rows: &[Arc<R>],
    area: &Box3,
    known: bool,
) -> Result<(), NoMemory>
    requires few { start + length rows.now < 2 ^ 32 }
    requires known { IsTrue known → rows_in area.now (values_of R.value rows.now) ≡ values_of R.value rows.now }
    ensures { OnOk result (found.new.items ≡ found.old.items ++ positions_from (is_in area.now) start (values_of R.value rows.now)) }
{
    for at in 0..rows.len() {
        let is_there = passes(&*rows[at], area, known);
        note(found, start + at as u32, is_there)?;
    }
    Ok(())
}

// Adds those of the rows of a block that starts at the position. None is looked at where the block's times are not
// those of the box.
fn note_block<R: Row>(
    found: &mut Vec<u32>,
    start: u32,
    block: &Block<R>,
    area: &Box3,
) -> Result<(), NoMemory>
    requires few { start + length block.now.rows.items < 2 ^ 32 }
    requires rising { IsRising (values_of R.value block.now.rows.items) }
    ensures { OnOk result (found.new.items ≡ found.old.items ++ positions_from (is_in area.now) start (values_of R.value block.now.rows.items)) }
{
    if is_apart(block, area) {
        return Ok(());
    }
    let known = lies_in(block, area);
    note_rows(found, start, &block.rows, area, known)
}

// The positions, rising, of the rows that the box includes.
pub(crate) fn positions_in<R: Row>(
    alloc: Global,
    listing: &Listing<R>,
    area: &Box3,
) -> Result<Vec<u32>, NoMemory>
    ensures { IfOk result (λ found. found.items ≡ positions (is_in area.now) (block_values R.value listing.now.pieces.items)) }
{
    let run = run_of(listing, area);
    let mut found = Vec::new(alloc);
    for i in run.from.block..block_behind(listing, area, &run) {
        note_block(&mut found, listing.start(i), listing.block(i), area)?;
    }
    Ok(found)
}
