//! Rows in runs, and what is chosen for those of them that a box includes.

use crate::areas::{Place, area};
use crate::rows::{offer, path_of, place, row};
use block_store::{BlockStore, Snapshot};
use range_split::{Choice, choose};
use std::alloc::Global;
use willow_area::{Area, Box3, box_of};
use willow_entry::BareRow;

// Rows i of a namespace and a subspace, each told by a byte of its key, from a number on and below another.
pub(crate) type Run = (u8, u8, u8, u8);

// Row i: its path is the byte i, its time is 100 + i.
fn row_at(alloc: Global, namespace: u8, subspace: u8, i: u8) -> Option<BareRow> {
    let (place, path) = (place(namespace, subspace)?, path_of(alloc, &[i])?);
    row(alloc, place, path, 100 + u64::from(i), Vec::new(alloc))
}

// Offers the rows of the run to the store.
fn offer_run(alloc: Global, store: &mut BlockStore<BareRow>, run: &Run) -> Option<()> {
    let (namespace, subspace, start, end) = *run;
    for i in start..end {
        offer(store, row_at(alloc, namespace, subspace, i)?)?;
    }
    Some(())
}

// The snapshot of a store that the rows of the runs are offered to.
fn with_runs(
    alloc: Global,
    store: &mut BlockStore<BareRow>,
    runs: &[Run],
) -> Option<Snapshot<BareRow>> {
    for run in runs {
        offer_run(alloc, store, run)?;
    }
    store.snapshot().ok()
}

// The snapshot of the rows of the runs.
fn snapshot(alloc: Global, runs: &[Run]) -> Option<Snapshot<BareRow>> {
    with_runs(alloc, &mut BlockStore::new(alloc), runs)
}

// The box of the area.
fn area_box(alloc: Global, area: Option<&Area>) -> Option<Box3> {
    box_of(alloc, area?).ok()
}

// What is chosen for those rows that the box includes.
fn chosen_in(rows: Option<&Snapshot<BareRow>>, b: Option<&Box3>) -> Option<Choice> {
    Some(choose(rows?, b?))
}

// What is chosen for those rows of the runs that the box of the area includes.
pub(crate) fn chosen(alloc: Global, runs: &[Run], place: &Place) -> Option<Choice> {
    let b = area_box(alloc, area(alloc, place).as_ref());
    chosen_in(snapshot(alloc, runs).as_ref(), b.as_ref())
}
