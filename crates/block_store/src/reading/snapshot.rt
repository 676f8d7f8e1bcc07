//! What a store held at one moment.

ghost use Rattle.std.specs.Prelude.{◌≡◌, ℕ, ◌+◌, ◌^◌, ◌<◌, ◌≤◌, length, map, Some, slice_get, IfOk, MatchOption};
ghost use Rattle.willow_entry.specs.Row.{AreLive};
ghost use Rattle.block_store.specs.Blocks.{block_rows, block_values};
ghost use Rattle.block_store.specs.BoxKinds.{IsOfOneNamespace, IsOneRun};
ghost use Rattle.block_store.specs.Fingerprint.{fingerprint_of};
ghost use Rattle.block_store.specs.Positions.{positions};
ghost use Rattle.block_store.specs.InBox.{is_in, rows_in};

use crate::block::Piece;
use crate::reading::boxes::{count_in, nth_in};
use crate::reading::fingerprint::total_in;
use crate::reading::listing::{Listing, listing_of};
use crate::reading::rows::{Rows, rows_of};
use crate::reading::walk::positions_in;
use std::alloc::Global;
use std::marker::Model;
use std::sync::Arc;
use std::sync::ledger::Ledger;
use step_count::Steps;
use willow_area::Box3;
use willow_entry::Row;
use willow_path::NoMemory;

/// The rows of a store at the moment at which it was taken; whatever becomes of the store, they stay.
/// A contract sees the list of the rows, by rising place.
#[derive(Drop)]
pub struct Snapshot<R: Row> {
    listing: Listing<R>,
}

impl<R: Row> Model for Snapshot<R> {
    ghost use Rattle.std.specs.Prelude.{List};
    ghost use Rattle.block_store.specs.Blocks.{block_rows};

    ghost Value = { List R };

    ghost view = { λ s. block_rows s.listing.pieces.items };
}

// The snapshot of live rows.
pub(crate) fn snapshot_of<R: Row>(
    alloc: Global,
    pieces: &[Piece<R>],
) -> Result<Snapshot<R>, NoMemory>
    requires is_live { AreLive (map R.value (block_rows pieces.now)) }
    requires few { length (block_rows pieces.now) < 2 ^ 32 }
    ensures { IfOk result (λ snapshot. snapshot ≡ block_rows pieces.now) }
{
    let listing = listing_of(alloc, pieces)?;
    Ok(Snapshot { listing })
}

impl<R: Row> Snapshot<R> {
    // Its rows in blocks.
    pub(crate) fn listing(&self) -> &Listing<R>
        ensures { block_rows result.now.pieces.items ≡ self.now }
    {
        &self.listing
    }

    /// The number of rows.
    pub fn len(&self) -> u32
        ensures { result ≡ length self.now }
    {
        self.listing.len()
    }

    /// The row at this position, counted from 0; None exactly from the length on.
    pub fn get(&self, at: u32) -> Option<&R>
        ensures row { MatchOption result (length self.now ≤ at) (λ row. slice_get self.now at ≡ Some row.now) }
        ensures live { AreLive (map R.value self.now) }
    {
        self.listing.get(at)
    }

    /// The row at this position, counted from 0, shared once more: it is not copied. None exactly from the length on.
    pub fn shared(&self, at: u32) -> Result<Option<Arc<R>>, NoMemory>
        ensures row { IfOk result (λ found. MatchOption found (length self.now ≤ at) (λ row. slice_get self.now at ≡ Some row.value)) }
        ensures live { AreLive (map R.value self.now) }
    {
        self.listing.shared(at)
    }

    /// The number of rows that the box includes.
    pub fn count_in(&self, area: &Box3) -> u32
        ensures { result ≡ length (rows_in area.now (map R.value self.now)) }
    {
        count_in(&self.listing, area)
    }

    /// The position of the n-th row, counted from 0, that the box includes; None exactly where there are
    /// not so many.
    pub fn nth_in(&self, area: &Box3, n: u32) -> Option<u32>
        ensures { result ≡ slice_get (positions (is_in area.now) (map R.value self.now)) n }
    {
        nth_in(&self.listing, area, n)
    }

    /// The positions, rising, of the rows that the box includes, by one walk along the blocks. A block whose rows were
    /// all written at other times is passed by.
    pub fn positions_in(&self, area: &Box3) -> Result<Vec<u32>, NoMemory>
        ensures { IfOk result (λ found. found.items ≡ positions (is_in area.now) (map R.value self.now)) }
    {
        positions_in(*self.listing.pieces.allocator(), &self.listing, area)
    }

    /// The fingerprint of the rows that the box includes: the SHA-256 digest of their number and of the four sums
    /// of their leaves' words, each modulo 2^64 and in eight bytes, high byte first. A row's leaf is the SHA-256
    /// digest of its entry's spelling and its token. Leaves are made with the snapshot, and here to take one is a step. For
    /// a box of all times that has one subspace or all paths, and rows of one namespace, at most 128 are taken.
    pub fn fingerprint<L: Ledger>(&self, area: &Box3, steps: &mut Steps<L>) -> [u8; 32]
        ensures fingerprint { result ≡ fingerprint_of (rows_in area.now (map R.value self.now)) }
        ensures steps { steps.new ≤ steps.old + length self.now }
        ensures few { IsOneRun area.now → IsOfOneNamespace (map R.value self.now) → steps.new ≤ steps.old + 128 }
    {
        total_in(&self.listing, area, steps).finish()
    }

    /// The rows, one after the other. No row is copied, and none is added up.
    pub fn rows(&self) -> Rows<'_, R>
        ensures rows { result ≡ self.now }
        ensures live { AreLive (map R.value self.now) }
    {
        rows_of(&self.listing.pieces)
    }

    /// An equal snapshot. No row is copied.
    pub fn share(&self) -> Result<Snapshot<R>, NoMemory>
        ensures equal { IfOk result (λ snapshot. snapshot ≡ self.now) }
        ensures live { AreLive (map R.value self.now) }
    {
        snapshot_of(*self.listing.pieces.allocator(), &self.listing.pieces)
    }
}
