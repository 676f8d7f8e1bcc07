//! Rows that stand in more than one block: what goes at once, what is shared, and how often rows are read.

ghost use Rattle.std.specs.Prelude.{◌≡◌};

use crate::boxes::area_box;
use crate::rows::{Rank, offer, path_of_bytes, row_of};
use block_store::{BlockStore, Snapshot};
use std::alloc::Global;
use std::marker::Brand;
use std::sync::Arc;
use std::sync::atomic::{AtomicU64, AtomicUsize, Ordering};
use std::sync::ledger::{Blank, Ledger};
use std::thread::Threads;
use step_count::Steps;
use store_threads::hash_both;
use willow_entry::{BareRow, Entry, Placed, Row};
use willow_path::NoMemory;

const EARLY: Rank = Rank {
    time: 5,
    length: 1,
    digest: 0x11,
};

const LATE: Rank = Rank {
    time: 6,
    length: 1,
    digest: 0x11,
};

// The row of the first subspace at this path of one-byte components.
fn row(alloc: Global, parts: &[u8], rank: Rank) -> Option<BareRow> {
    row_of(alloc, 1, path_of_bytes(alloc, parts)?, rank, 0)
}

// The row of the first subspace at a path whose second component has two bytes. Every other one is late.
fn deep_row(alloc: Global, number: u16) -> Option<BareRow> {
    let mut path = path_of_bytes(alloc, b"a")?;
    path.push(&number.to_be_bytes()).ok()?;
    let rank = if number % 2 == 0 { EARLY } else { LATE };
    row_of(alloc, 1, path, rank, 0)
}

// Offers 130 rows below one path; None where one of them pruned or was kept out.
fn fill_below(alloc: Global, store: &mut BlockStore<BareRow>) -> Option<()> {
    for i in 0..130u8 {
        let placed = offer(store, row(alloc, &[b'a', i], EARLY)?)?;
        if placed != (Placed::Stored { pruned: 0 }) {
            return None;
        }
    }
    Some(())
}

// What becomes of a later row at that path, how many rows are left, and how many a snapshot taken before still has.
fn prunes_all(alloc: Global, store: &mut BlockStore<BareRow>) -> Option<(Placed, u32, u32)> {
    fill_below(alloc, store)?;
    let before = store.snapshot().ok()?;
    let placed = offer(store, row(alloc, b"a", LATE)?)?;
    Some((placed, store.len(), before.len()))
}

// The same in a new store.
pub(crate) fn pruned_below(alloc: Global) -> Option<(Placed, u32, u32)> {
    prunes_all(alloc, &mut BlockStore::new(alloc))
}

// How often rows were copied, and how often their entry's bytes were read.
#[derive(Drop)]
struct Calls {
    copies: AtomicU64,
    reads: AtomicU64,
}

// A row that counts these calls.
#[derive(Drop)]
struct CountedRow {
    row: BareRow,
    calls: Arc<Calls>,
}

impl Row for CountedRow {
    ghost value = { λ r. r.row };

    fn entry(&self) -> &Entry {
        self.row.entry()
    }

    fn entry_bytes(&self) -> &[u8] {
        self.calls.reads.fetch_add(1, Ordering::SeqCst);
        self.row.entry_bytes()
    }

    fn token_bytes(&self) -> &[u8] {
        self.row.token_bytes()
    }

    fn copy(&self) -> Result<CountedRow, NoMemory> {
        self.calls.copies.fetch_add(1, Ordering::SeqCst);
        let row = self.row.copy()?;
        let calls = self.calls.clone()?;
        Ok(CountedRow { row, calls })
    }
}

// A row with these calls.
fn counting(row: BareRow, calls: &Arc<Calls>) -> Option<CountedRow> {
    let calls = calls.clone().ok()?;
    Some(CountedRow { row, calls })
}

// Offers so many rows below one path.
fn fill(
    alloc: Global,
    store: &mut BlockStore<CountedRow>,
    calls: &Arc<Calls>,
    rows: u16,
) -> Option<()> {
    for i in 0..rows {
        let _placed = offer(store, counting(deep_row(alloc, i)?, calls)?)?;
    }
    Some(())
}

// How often rows are copied, and their bytes read, for a snapshot and for sharing it, and then copied for a row that is
// offered beside it. How often a row's bytes are read for a fingerprint of all rows, and for one of every other row.
#[derive(Clone, Copy)]
pub(crate) struct Counts {
    pub(crate) copies_to_share: u64,
    pub(crate) reads_to_share: u64,
    pub(crate) copies_to_ingest: u64,
    pub(crate) reads_of_all: u64,
    pub(crate) reads_of_half: u64,
}

// The counts for a thousand rows.
pub(crate) fn calls_of_thousand(alloc: Global) -> Option<Counts> {
    counted::<Brand>(alloc, Blank::new(1))
}

// How often rows were copied so far.
fn copies(calls: &Calls) -> u64 {
    calls.copies.load(Ordering::SeqCst)
}

// How often a row's bytes were read so far.
fn reads(calls: &Calls) -> u64 {
    calls.reads.load(Ordering::SeqCst)
}

// How often a row's bytes are read for a fingerprint of the rows that were written before a time, or of all.
fn reads_before<L: Ledger>(
    alloc: Global,
    calls: &Calls,
    rows: &Snapshot<CountedRow>,
    end: Option<u64>,
    steps: &mut Steps<L>,
) -> Option<u64> {
    let area = area_box(alloc, Some(1), b"", 0, end)?;
    let before = reads(calls);
    let _fingerprint = rows.fingerprint(&area, steps);
    Some(reads(calls).saturating_sub(before))
}

// The counts for a shared snapshot of the store's rows.
fn counted_beside<L: Ledger>(
    alloc: Global,
    calls: &Arc<Calls>,
    store: &mut BlockStore<CountedRow>,
    shared: &Snapshot<CountedRow>,
    steps: &mut Steps<L>,
) -> Option<Counts> {
    let (copies_to_share, reads_to_share) = (copies(calls), reads(calls));
    let _placed = offer(store, counting(row(alloc, b"b", EARLY)?, calls)?)?;
    let copies_to_ingest = copies(calls);
    Some(Counts {
        copies_to_share,
        reads_to_share,
        copies_to_ingest,
        reads_of_all: reads_before(alloc, calls, shared, None, steps)?,
        reads_of_half: reads_before(alloc, calls, shared, Some(LATE.time), steps)?,
    })
}

// The counts for a snapshot of the store's rows, which are hashed before, and which is shared.
fn counted_in<L: Ledger>(
    alloc: Global,
    calls: &Arc<Calls>,
    store: &mut BlockStore<CountedRow>,
    steps: &mut Steps<L>,
) -> Option<Counts> {
    fill(alloc, store, calls, 1000)?;
    store.hash_rows(&AtomicUsize::new(0));
    let snapshot = store.snapshot().ok()?;
    let shared = snapshot.share().ok()?;
    counted_beside(alloc, calls, store, &shared, steps)
}

// Counters of no call.
fn no_calls(alloc: Global) -> Option<Arc<Calls>> {
    let calls = Calls {
        copies: AtomicU64::new(0),
        reads: AtomicU64::new(0),
    };
    Arc::new(alloc, calls).ok()
}

// The same of a new store, with a ledger of the steps.
fn counted<L: Ledger>(alloc: Global, blank: Blank) -> Option<Counts>
    requires name { blank.name ≡ L.name }
    requires parts { blank.parts ≡ L.parts }
    requires one { blank.parts ≡ 1 }
{
    let mut steps = Steps::<L>::new(blank);
    let calls = no_calls(alloc)?;
    counted_in(alloc, &calls, &mut BlockStore::new(alloc), &mut steps)
}

// How often rows of two stores of so many rows are read until both are hashed ahead, and until both have a snapshot.
pub(crate) fn reads_ahead<T: Threads + Sync>(
    rt: &T,
    alloc: Global,
    rows: u16,
) -> Option<(u64, u64)> {
    let calls = no_calls(alloc)?;
    let (mut left, mut right) = (BlockStore::new(alloc), BlockStore::new(alloc));
    fill(alloc, &mut left, &calls, rows)?;
    fill(alloc, &mut right, &calls, rows)?;
    hash_both(rt, alloc, &left, &right);
    let ahead = reads(&calls);
    let _snapshots = (left.snapshot().ok()?, right.snapshot().ok()?);
    Some((ahead, reads(&calls)))
}
