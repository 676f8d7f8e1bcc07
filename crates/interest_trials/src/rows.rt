//! Rows of a namespace, each told by a number.

use block_store::{BlockStore, Snapshot};
use std::alloc::Global;
use willow_area::{Area, TimeRange};
use willow_entry::{BareRow, Entry, Row};
use willow_path::{Digest, NamespaceKey, Path, UserKey};

// A row: its number, from 1 to 9, its subspace, the byte of its path, its time, and the length of its payload.
pub(crate) type Made = (u8, u8, u8, u64, u64);

// An area of all paths: its subspace, the start and the end of its times.
pub(crate) type Place = (Option<u8>, u64, Option<u64>);

// An open key with this byte throughout its body.
fn key(byte: u8) -> [u8; 33] {
    let mut bytes = [byte; 33];
    bytes[0] = 0;
    bytes
}

// The namespace of all rows.
pub(crate) fn namespace() -> Option<NamespaceKey> {
    NamespaceKey::from_bytes(key(b'N'))
}

// The row, with its number as its token.
fn row_of(alloc: Global, made: &Made) -> Option<BareRow> {
    let (number, subspace, byte, timestamp, length) = *made;
    let mut path = Path::empty(alloc);
    path.push(&[byte]).ok()?;
    let entry = Entry {
        namespace: namespace()?,
        subspace: UserKey::from_bytes(key(subspace))?,
        path,
        timestamp,
        length,
        digest: Digest([0x11; 32]),
    };
    BareRow::new(alloc, entry, Vec::from_slice(alloc, &[number]).ok()?).ok()
}

// Offers the row to the store.
fn offer(store: &mut BlockStore<BareRow>, row: BareRow) -> Option<()> {
    if store.is_full() {
        return None;
    }
    let _placed = store.ingest(row).ok()?;
    Some(())
}

// Offers the rows.
fn offer_all(alloc: Global, store: &mut BlockStore<BareRow>, rows: &[Made]) -> Option<()> {
    for made in rows {
        offer(store, row_of(alloc, made)?)?;
    }
    Some(())
}

// The snapshot of a store of the rows.
pub(crate) fn snapshot_of(alloc: Global, rows: &[Made]) -> Option<Snapshot<BareRow>> {
    let mut store = BlockStore::new(alloc);
    offer_all(alloc, &mut store, rows)?;
    store.snapshot().ok()
}

// The number of a row, or 0 where there is none.
fn number<R: Row>(row: Option<&R>) -> u8 {
    match row {
        None => 0,
        Some(row) => row.token_bytes().first().copied().unwrap_or(0),
    }
}

// The numbers of the rows, in their order, as digits of one number.
pub(crate) fn numbers<R: Row>(rows: &Snapshot<R>) -> u64 {
    let mut digits = 0u64;
    for at in 0..rows.len() {
        digits = digits
            .saturating_mul(10)
            .saturating_add(u64::from(number(rows.get(at))));
    }
    digits
}

// The area, if it is one.
pub(crate) fn area_of(alloc: Global, place: &Place) -> Option<Area> {
    let (byte, start, end) = *place;
    let subspace = match byte {
        None => None,
        Some(byte) => Some(UserKey::from_bytes(key(byte))?),
    };
    Some(Area {
        subspace,
        path: Path::empty(alloc),
        times: TimeRange::new(start, end)?,
    })
}
