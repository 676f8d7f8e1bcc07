//! Lists of rows that look random, and what both stores make of them.

use crate::rows::{Rank, offer, offer_flat, offer_searched, path_of, path_of_bytes, row_of};
use block_store::BlockStore;
use flat_store::FlatStore;
use std::alloc::Global;
use std::sync::Arc;
use willow_entry::{BareRow, Placed, same};
use willow_path::Path;

// How many rows a list has, and a wide one.
const LENGTH: usize = 40;

const WIDE: usize = 400;

static PARTS: [&[u8]; 4] = [b"a", b"b", b"ab", b""];

const FIRSTS: [u8; 3] = [97, 98, 99];

// The next number of a list.
fn next(number: u64) -> u64 {
    number
        .wrapping_mul(6_364_136_223_846_793_005)
        .wrapping_add(1_442_695_040_888_963_407)
}

// The path that a number tells: up to two components.
fn path_at(alloc: Global, number: u64) -> Option<Path> {
    let first = PARTS[(number % 4) as usize];
    let second = PARTS[(number / 8 % 4) as usize];
    match number / 64 % 8 {
        0 => path_of(alloc, &[]),
        1 | 2 | 3 => path_of(alloc, &[first]),
        _ => path_of(alloc, &[first, second]),
    }
}

// The row that a number tells by its higher half.
fn row_at(alloc: Global, number: u64) -> Option<BareRow> {
    let high = number / 4_294_967_296;
    let subspace = if high % 2 == 0 { 1 } else { 2 };
    let token = if high / 2 % 2 == 0 { 0 } else { 7 };
    let digest = if high / 4 % 2 == 0 { 0x11 } else { 0x12 };
    let rank = Rank {
        time: high / 8 % 8,
        length: high / 64 % 2,
        digest,
    };
    row_of(alloc, subspace, path_at(alloc, high / 128)?, rank, token)
}

// The row of a wide list that a number tells by its higher half: few paths have one component, and many two, so that
// these rows stand in several blocks and go by the run.
fn wide_row_at(alloc: Global, number: u64) -> Option<BareRow> {
    let high = number / 4_294_967_296;
    let subspace = if high % 2 == 0 { 1 } else { 2 };
    let first = FIRSTS[(high / 2 % 3) as usize];
    let second = (high / 8 % 128) as u8;
    let rank = Rank {
        time: high / 1024 % 8,
        length: 1,
        digest: 0x11,
    };
    let path = if high / 8192 % 64 == 0 {
        path_of_bytes(alloc, &[first])?
    } else {
        path_of_bytes(alloc, &[first, second])?
    };
    row_of(alloc, subspace, path, rank, 0)
}

// A list of rows that look random: its first number, and whether it is wide.
#[derive(Clone, Copy)]
pub(crate) struct List {
    pub(crate) number: u64,
    pub(crate) wide: bool,
}

impl List {
    // How many rows it has.
    fn len(&self) -> usize {
        if self.wide { WIDE } else { LENGTH }
    }

    // The row that a number tells.
    fn row(&self, alloc: Global, number: u64) -> Option<BareRow> {
        if self.wide {
            wide_row_at(alloc, number)
        } else {
            row_at(alloc, number)
        }
    }
}

// Whether both stores hold the same rows in the same order.
fn hold_the_same(flat: &FlatStore<BareRow>, shared: &BlockStore<BareRow>) -> bool {
    let mut at = 0u32;
    for row in flat.rows() {
        match shared.get(at) {
            Some(other) if same(other, row) => at = at.saturating_add(1),
            _ => return false,
        }
    }
    shared.len() == at
}

// What became of a list: how many rows were kept out, the sum of the positions of the rows that they were
// kept out by, how many rows were pruned, and how many are left.
#[derive(Clone, Copy, Debug, PartialEq, Eq)]
pub(crate) struct Outcome {
    pub(crate) kept: u32,
    pub(crate) by: u32,
    pub(crate) pruned: u32,
    pub(crate) left: u32,
}

// The outcome with one more answer.
fn counted(outcome: Outcome, answer: Placed) -> Outcome {
    let mut outcome = outcome;
    match answer {
        Placed::Kept { by } => {
            outcome.kept = outcome.kept.saturating_add(1);
            outcome.by = outcome.by.saturating_add(by);
        }
        Placed::Stored { pruned } => outcome.pruned = outcome.pruned.saturating_add(pruned),
    }
    outcome
}

// What the store of shared rows answers of a row: every other one it searches for first.
fn offer_to(
    alloc: Global,
    shared: &mut BlockStore<BareRow>,
    row: BareRow,
    number: u64,
) -> Option<Placed> {
    if number % 2 == 0 {
        offer(shared, row)
    } else {
        offer_searched(shared, Arc::new(alloc, row).ok()?)
    }
}

// What both stores answer of the row that a number tells, where they agree.
fn offer_both(
    alloc: Global,
    flat: &mut FlatStore<BareRow>,
    shared: &mut BlockStore<BareRow>,
    list: List,
    number: u64,
) -> Option<Placed> {
    let placed = offer_flat(flat, list.row(alloc, number)?)?;
    let other = offer_to(alloc, shared, list.row(alloc, number)?, number)?;
    (placed == other).then_some(placed)
}

// The outcome of a list where both stores, which have no row before, agree on it.
fn outcome_of(
    alloc: Global,
    flat: &mut FlatStore<BareRow>,
    shared: &mut BlockStore<BareRow>,
    list: List,
) -> Option<Outcome> {
    let mut outcome = Outcome {
        kept: 0,
        by: 0,
        pruned: 0,
        left: 0,
    };
    let mut number = list.number;
    for _ in 0..list.len() {
        number = next(number);
        outcome = counted(outcome, offer_both(alloc, flat, shared, list, number)?);
    }
    outcome.left = shared.len();
    hold_the_same(flat, shared).then_some(outcome)
}

// The outcome of a list where both stores agree on it.
pub(crate) fn outcome_in_both(alloc: Global, list: List) -> Option<Outcome> {
    outcome_of(
        alloc,
        &mut FlatStore::new(alloc),
        &mut BlockStore::new(alloc),
        list,
    )
}
