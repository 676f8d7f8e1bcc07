//! Two rows, offered to both stores one after the other.

use crate::rows::{Rank, offer, offer_flat, path_of_bytes, row_of};
use block_store::BlockStore;
use flat_store::FlatStore;
use std::alloc::Global;
use willow_entry::{BareRow, Placed};

// A row's subspace, path of one-byte components, timestamp, length, digest's bytes and token.
pub(crate) type Made<'a> = (u8, &'a [u8], u64, u64, u8, u8);

// The row of these numbers.
fn row(alloc: Global, made: &Made) -> Option<BareRow> {
    let rank = Rank {
        time: made.2,
        length: made.3,
        digest: made.4,
    };
    row_of(alloc, made.0, path_of_bytes(alloc, made.1)?, rank, made.5)
}

// What the plain store answers of the second row, and how many rows it has then.
fn second_in_flat(
    alloc: Global,
    store: &mut FlatStore<BareRow>,
    first: &Made,
    second: &Made,
) -> Option<(Placed, usize)> {
    let _first = offer_flat(store, row(alloc, first)?)?;
    let placed = offer_flat(store, row(alloc, second)?)?;
    Some((placed, store.rows().len()))
}

// What a row is covered by in the store of shared rows, and how many rows it prunes there.
fn told(store: &BlockStore<BareRow>, row: &BareRow) -> Option<(Option<u32>, usize)> {
    Some((store.covered_by(row), store.pruned_by(row).ok()?.len()))
}

// Whether that is what the answer tells.
fn is_so(told: (Option<u32>, usize), placed: Placed) -> bool {
    let (covered, pruned) = told;
    match placed {
        Placed::Kept { by } => covered == Some(by),
        Placed::Stored { pruned: count } => covered.is_none() && pruned == count as usize,
    }
}

// What the store of shared rows answers of a row. What the row is said before to be covered by, or to prune, is what the
// answer tells.
fn offer_told(store: &mut BlockStore<BareRow>, row: BareRow) -> Option<Placed> {
    let told = told(store, &row)?;
    let placed = offer(store, row)?;
    is_so(told, placed).then_some(placed)
}

// What it answers of the second row, and how many rows it has then.
fn second_in_shared(
    alloc: Global,
    store: &mut BlockStore<BareRow>,
    first: &Made,
    second: &Made,
) -> Option<(Placed, u32)> {
    let _first = offer(store, row(alloc, first)?)?;
    let placed = offer_told(store, row(alloc, second)?)?;
    Some((placed, store.len()))
}

// What both stores answer of the second row, and how many rows they have then, where they agree.
pub(crate) fn offer_both(alloc: Global, first: &Made, second: &Made) -> Option<(Placed, u32)> {
    let (placed, left) = second_in_shared(alloc, &mut BlockStore::new(alloc), first, second)?;
    let flat = second_in_flat(alloc, &mut FlatStore::new(alloc), first, second);
    (flat == Some((placed, left as usize))).then_some((placed, left))
}
