//! Rows, and stores that they are offered to.

use crate::keys::{key, user};
use block_store::{BlockStore, Snapshot};
use std::alloc::Global;
use willow_entry::{BareRow, Entry};
use willow_path::{Digest, NamespaceKey, Path, UserKey};

// The path of components of these single bytes.
pub(crate) fn path_of(alloc: Global, parts: &[u8]) -> Option<Path> {
    let mut path = Path::empty(alloc);
    for part in parts {
        path.push(&[*part]).ok()?;
    }
    Some(path)
}

// The namespace and the subspace of these bytes.
pub(crate) fn place(namespace: u8, subspace: u8) -> Option<(NamespaceKey, UserKey)> {
    Some((NamespaceKey::from_bytes(key(namespace))?, user(subspace)?))
}

// The row of a namespace and a subspace at a path, of a time, with this token.
pub(crate) fn row(
    alloc: Global,
    place: (NamespaceKey, UserKey),
    path: Path,
    time: u64,
    token: Vec<u8>,
) -> Option<BareRow> {
    let (namespace, subspace) = place;
    let entry = Entry {
        namespace,
        subspace,
        path,
        timestamp: time,
        length: 1,
        digest: Digest([0x11; 32]),
    };
    BareRow::new(alloc, entry, token).ok()
}

// Offers the row to the store.
pub(crate) fn offer(store: &mut BlockStore<BareRow>, row: BareRow) -> Option<()> {
    if store.is_full() {
        return None;
    }
    let _placed = store.ingest(row).ok()?;
    Some(())
}

// Rows of these bytes, from one on and below another, and one of them that is newer than elsewhere.
pub(crate) type Bytes = (u8, u8, Option<u8>);

// The time of the row of a byte: 100 and the byte, or 200 where it is the newer one.
fn time_of(byte: u8, newer: Option<u8>) -> u64 {
    if newer == Some(byte) {
        200
    } else {
        100 + u64::from(byte)
    }
}

// The row of a byte in U's subspace, with a token of so many bytes 00, at most 102.
fn byte_row(alloc: Global, byte: u8, time: u64, token: usize) -> Option<BareRow> {
    let token = Vec::from_slice(alloc, &[0; 102][..token.min(102)]).ok()?;
    row(
        alloc,
        place(b'N', b'U')?,
        path_of(alloc, &[byte])?,
        time,
        token,
    )
}

// Offers the rows of these bytes, with tokens of so many bytes.
fn offer_bytes(
    alloc: Global,
    store: &mut BlockStore<BareRow>,
    bytes: &Bytes,
    token: usize,
) -> Option<()> {
    let (start, end, newer) = *bytes;
    for byte in start..end {
        offer(store, byte_row(alloc, byte, time_of(byte, newer), token)?)?;
    }
    Some(())
}

// The snapshot of a store of them.
pub(crate) fn rows_of(alloc: Global, bytes: &Bytes, token: usize) -> Option<Snapshot<BareRow>> {
    let mut store = BlockStore::new(alloc);
    offer_bytes(alloc, &mut store, bytes, token)?;
    store.snapshot().ok()
}
