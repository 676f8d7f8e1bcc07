//! Four rows, and those of them that a box includes.

ghost use Rattle.std.specs.Prelude.{◌≡◌};

use crate::rows::{Rank, offer, path_of_bytes, row_of, user};
use block_store::{BlockStore, Snapshot};
use std::alloc::Global;
use std::sync::ledger::{Blank, Ledger};
use step_count::Steps;
use willow_area::{Area, Box3, TimeRange, box_of};
use willow_entry::{BareRow, same};

// Offers a row of this subspace, path and time to the store.
fn offer_at(
    alloc: Global,
    store: &mut BlockStore<BareRow>,
    subspace: u8,
    parts: &[u8],
    time: u64,
) -> Option<()> {
    let rank = Rank {
        time,
        length: 1,
        digest: 0x11,
    };
    let path = path_of_bytes(alloc, parts)?;
    let _placed = offer(store, row_of(alloc, subspace, path, rank, 0)?)?;
    Some(())
}

// Offers rows at /a, /a/b and /b of one subspace, and at /a of the next, not in this order.
fn fill(alloc: Global, store: &mut BlockStore<BareRow>) -> Option<()> {
    offer_at(alloc, store, 2, b"a", 6)?;
    offer_at(alloc, store, 1, b"b", 7)?;
    offer_at(alloc, store, 1, b"a", 5)?;
    offer_at(alloc, store, 1, b"ab", 5)
}

// The snapshot of those rows, in that order.
fn snapshot(alloc: Global) -> Option<Snapshot<BareRow>> {
    let mut store = BlockStore::new(alloc);
    fill(alloc, &mut store)?;
    store.snapshot().ok()
}

// The box of any subspace, or the one of this byte, of the extensions of a path, and of a range of times.
pub(crate) fn area_box(
    alloc: Global,
    subspace: Option<u8>,
    parts: &[u8],
    start: u64,
    end: Option<u64>,
) -> Option<Box3> {
    let subspace = match subspace {
        None => None,
        Some(byte) => Some(user(byte)?),
    };
    let area = Area {
        subspace,
        path: path_of_bytes(alloc, parts)?,
        times: TimeRange::new(start, end)?,
    };
    box_of(alloc, &area).ok()
}

// How many of the four rows the box includes, and the positions of the first five that it includes.
fn positions(rows: &Snapshot<BareRow>, area: &Box3) -> (u32, [Option<u32>; 5]) {
    (
        rows.count_in(area),
        [
            rows.nth_in(area, 0),
            rows.nth_in(area, 1),
            rows.nth_in(area, 2),
            rows.nth_in(area, 3),
            rows.nth_in(area, 4),
        ],
    )
}

// An area: its subspace, its path, the start and the end of its times.
pub(crate) type Place<'a> = (Option<u8>, &'a [u8], u64, Option<u64>);

// The box of an area.
fn place_box(alloc: Global, place: &Place) -> Option<Box3> {
    area_box(alloc, place.0, place.1, place.2, place.3)
}

// How many of some rows the box includes, and which, where both could be made.
fn found_in(
    rows: Option<&Snapshot<BareRow>>,
    area: Option<&Box3>,
) -> Option<(u32, [Option<u32>; 5])> {
    Some(positions(rows?, area?))
}

// The same of the four rows and the box of an area.
pub(crate) fn found(alloc: Global, place: &Place) -> Option<(u32, [Option<u32>; 5])> {
    found_in(snapshot(alloc).as_ref(), place_box(alloc, place).as_ref())
}

// Whether a walk over those of some rows that the box includes tells just these positions, where both could be made.
fn walk_tells(
    rows: Option<&Snapshot<BareRow>>,
    area: Option<&Box3>,
    wanted: &[Option<u32>; 5],
) -> Option<bool> {
    let walked = rows?.positions_in(area?).ok()?;
    for at in 0..5usize {
        if walked.get(at).copied() != wanted[at] {
            return Some(false);
        }
    }
    Some(true)
}

// The same of the four rows and the box of an area.
pub(crate) fn is_walked(alloc: Global, place: &Place, wanted: &[Option<u32>; 5]) -> Option<bool> {
    walk_tells(
        snapshot(alloc).as_ref(),
        place_box(alloc, place).as_ref(),
        wanted,
    )
}

// The fingerprint of those of some rows that the box includes, where both could be made.
fn fingerprint_in<L: Ledger>(
    rows: Option<&Snapshot<BareRow>>,
    area: Option<&Box3>,
    steps: &mut Steps<L>,
) -> Option<[u8; 32]> {
    Some(rows?.fingerprint(area?, steps))
}

// The fingerprint of those of the four rows that the box of an area includes.
pub(crate) fn fingerprint<L: Ledger>(alloc: Global, place: &Place, blank: Blank) -> Option<[u8; 32]>
    requires name { blank.name ≡ L.name }
    requires parts { blank.parts ≡ L.parts }
    requires one { blank.parts ≡ 1 }
{
    let mut steps = Steps::<L>::new(blank);
    fingerprint_in(
        snapshot(alloc).as_ref(),
        place_box(alloc, place).as_ref(),
        &mut steps,
    )
}

// Whether two snapshots have the same rows in the same order.
fn have_the_same(one: &Snapshot<BareRow>, other: &Snapshot<BareRow>) -> bool {
    for at in 0..one.len() {
        match (one.get(at), other.get(at)) {
            (Some(row), Some(other)) if same(row, other) => {}
            _ => return false,
        }
    }
    one.len() == other.len()
}

// How many rows a shared snapshot has where it is equal to the first.
fn shared_of(rows: &Snapshot<BareRow>) -> Option<u32> {
    let again = rows.share().ok()?;
    have_the_same(rows, &again).then_some(again.len())
}

// The same of the four rows.
pub(crate) fn shared(alloc: Global) -> Option<u32> {
    shared_of(&snapshot(alloc)?)
}

// Whether a snapshot shares the row at this position.
fn shares_row(rows: &Snapshot<BareRow>, at: u32) -> Option<bool> {
    let shared = rows.shared(at).ok()?;
    Some(same(rows.get(at)?, &*shared?))
}

// Whether a snapshot shares the row at each position, and none behind them.
fn shares_each(rows: &Snapshot<BareRow>) -> Option<bool> {
    for at in 0..rows.len() {
        if !shares_row(rows, at)? {
            return Some(false);
        }
    }
    Some(rows.shared(rows.len()).ok()?.is_none())
}

// The same of the four rows.
pub(crate) fn rows_are_shared(alloc: Global) -> Option<bool> {
    shares_each(&snapshot(alloc)?)
}
