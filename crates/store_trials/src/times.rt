//! Rows of two writers whose times have nothing to do with their paths: what boxes of some times include, told along an
//! order by time and by the snapshot alone, and how many looks at rows each call along the order takes.

ghost use Rattle.std.specs.Prelude.{◌≡◌, map};
ghost use Rattle.block_store.specs.ByTime.{IsTimeOrder};

use crate::boxes::area_box;
use crate::rows::{Rank, offer, path_of, row_of};
use block_store::{BlockStore, Snapshot, TimeOrder};
use std::alloc::Global;
use std::sync::Arc;
use std::sync::atomic::{AtomicU64, Ordering};
use std::sync::ledger::{Blank, Ledger};
use step_count::Steps;
use willow_area::Box3;
use willow_entry::{BareRow, Entry, Row};
use willow_path::NoMemory;

// A row that counts the looks at its entry.
#[derive(Drop)]
struct SeenRow {
    row: BareRow,
    looks: Arc<AtomicU64>,
}

impl Row for SeenRow {
    ghost value = { λ r. r.row };

    fn entry(&self) -> &Entry {
        self.looks.fetch_add(1, Ordering::SeqCst);
        self.row.entry()
    }

    fn entry_bytes(&self) -> &[u8] {
        self.row.entry_bytes()
    }

    fn token_bytes(&self) -> &[u8] {
        self.row.token_bytes()
    }

    fn copy(&self) -> Result<SeenRow, NoMemory> {
        let row = self.row.copy()?;
        let looks = self.looks.clone()?;
        Ok(SeenRow { row, looks })
    }
}

// Offers a row of the writer at the path of that number.
fn offer_at(
    alloc: Global,
    store: &mut BlockStore<SeenRow>,
    looks: &Arc<AtomicU64>,
    writer: u8,
    number: u16,
    time: u64,
) -> Option<()> {
    let rank = Rank {
        time,
        length: 1,
        digest: 0x11,
    };
    let path = path_of(alloc, &[&number.to_be_bytes()])?;
    let row = row_of(alloc, writer, path, rank, 0)?;
    let looks = looks.clone().ok()?;
    let _placed = offer(store, SeenRow { row, looks })?;
    Some(())
}

// Offers 512 rows of each of two writers. Each has a row of each path, at times below 521 that come to no order by them.
fn fill(alloc: Global, store: &mut BlockStore<SeenRow>, looks: &Arc<AtomicU64>) -> Option<()> {
    for number in 0..512u16 {
        let at = u64::from(number);
        offer_at(alloc, store, looks, 1, number, at * 197 % 521)?;
        offer_at(alloc, store, looks, 2, number, at * 331 % 521)?;
    }
    Some(())
}

// How many rows a box includes, and the looks at rows that it took along an order by time to count them, to list them and to
// add them up.
#[derive(Clone, Copy)]
pub(crate) struct Told {
    pub(crate) rows: u32,
    pub(crate) counted: u64,
    pub(crate) listed: u64,
    pub(crate) added: u64,
}

// The looks since a number of them.
fn since(looks: &AtomicU64, before: u64) -> u64 {
    looks.load(Ordering::SeqCst).saturating_sub(before)
}

// The rows that a box includes and the looks that it took to count them. None where the snapshot counts others.
fn counted_by_both<R: Row>(
    rows: &Snapshot<R>,
    order: &TimeOrder,
    area: &Box3,
    looks: &AtomicU64,
) -> Option<(u32, u64)>
    requires { IsTimeOrder order.now (map R.value rows.now) }
{
    let start = looks.load(Ordering::SeqCst);
    let count = order.count_in(rows, area);
    let by_time = since(looks, start);
    (rows.count_in(area) == count).then_some((count, by_time))
}

// The looks that it took to list them. None where the snapshot lists others.
fn listed_by_both<R: Row>(
    rows: &Snapshot<R>,
    order: &TimeOrder,
    area: &Box3,
    looks: &AtomicU64,
) -> Option<u64>
    requires { IsTimeOrder order.now (map R.value rows.now) }
{
    let start = looks.load(Ordering::SeqCst);
    let found = order.positions_in(rows, area).ok()?;
    let by_time = since(looks, start);
    let walked = rows.positions_in(area).ok()?;
    (found == walked).then_some(by_time)
}

// The looks that it took to add them up. None where the snapshot has another fingerprint.
fn added_by_both<R: Row, L: Ledger>(
    rows: &Snapshot<R>,
    order: &TimeOrder,
    area: &Box3,
    looks: &AtomicU64,
    steps: &mut Steps<L>,
) -> Option<u64>
    requires { IsTimeOrder order.now (map R.value rows.now) }
{
    let start = looks.load(Ordering::SeqCst);
    let print = order.fingerprint(rows, area, steps);
    let by_time = since(looks, start);
    (print == rows.fingerprint(area, steps)).then_some(by_time)
}

// The same with an order made for it.
fn told_of<R: Row, L: Ledger>(
    alloc: Global,
    rows: &Snapshot<R>,
    area: &Box3,
    looks: &AtomicU64,
    steps: &mut Steps<L>,
) -> Option<Told> {
    let order = TimeOrder::of(alloc, rows).ok()?;
    let (count, counted) = counted_by_both(rows, &order, area, looks)?;
    Some(Told {
        rows: count,
        counted,
        listed: listed_by_both(rows, &order, area, looks)?,
        added: added_by_both(rows, &order, area, looks, steps)?,
    })
}

// The same of those rows and a box of any or one subspace, and of times.
pub(crate) fn told_in<L: Ledger>(
    alloc: Global,
    subspace: Option<u8>,
    start: u64,
    end: u64,
    blank: Blank,
) -> Option<Told>
    requires name { blank.name ≡ L.name }
    requires parts { blank.parts ≡ L.parts }
    requires one { blank.parts ≡ 1 }
{
    let mut steps = Steps::<L>::new(blank);
    let looks = Arc::new(alloc, AtomicU64::new(0)).ok()?;
    let mut store = BlockStore::new(alloc);
    fill(alloc, &mut store, &looks)?;
    let rows = store.snapshot().ok()?;
    let area = area_box(alloc, subspace, b"", start, Some(end))?;
    told_of(alloc, &rows, &area, &looks, &mut steps)
}
