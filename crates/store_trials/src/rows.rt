//! Rows made of few numbers.

use block_store::BlockStore;
use flat_store::FlatStore;
use std::alloc::Global;
use std::sync::Arc;
use willow_entry::{BareRow, Entry, Placed, Row};
use willow_path::{Digest, NamespaceKey, Path, UserKey};

// An open key with this byte throughout its body.
fn key(byte: u8) -> [u8; 33] {
    let mut bytes = [byte; 33];
    bytes[0] = 0;
    bytes
}

// The user key of this byte.
pub(crate) fn user(byte: u8) -> Option<UserKey> {
    UserKey::from_bytes(key(byte))
}

// The path of these components.
pub(crate) fn path_of(alloc: Global, parts: &[&[u8]]) -> Option<Path> {
    let mut path = Path::empty(alloc);
    for part in parts {
        path.push(part).ok()?;
    }
    Some(path)
}

// The path of these components of one byte each.
pub(crate) fn path_of_bytes(alloc: Global, bytes: &[u8]) -> Option<Path> {
    let mut path = Path::empty(alloc);
    for byte in bytes {
        path.push(&[*byte]).ok()?;
    }
    Some(path)
}

// What an entry has beside its place: the timestamp, the length and the bytes of its digest.
#[derive(Clone, Copy)]
pub(crate) struct Rank {
    pub(crate) time: u64,
    pub(crate) length: u64,
    pub(crate) digest: u8,
}

// The entry at this path of the subspace of this byte.
fn entry_of(subspace: u8, path: Path, rank: Rank) -> Option<Entry> {
    Some(Entry {
        namespace: NamespaceKey::from_bytes(key(0x4e))?,
        subspace: user(subspace)?,
        path,
        timestamp: rank.time,
        length: rank.length,
        digest: Digest([rank.digest; 32]),
    })
}

// The row of the entry with a token of one byte.
pub(crate) fn row_of(
    alloc: Global,
    subspace: u8,
    path: Path,
    rank: Rank,
    token: u8,
) -> Option<BareRow> {
    let entry = entry_of(subspace, path, rank)?;
    BareRow::new(alloc, entry, Vec::from_slice(alloc, &[token]).ok()?).ok()
}

// What the plain store answers of a row.
pub(crate) fn offer_flat<R: Row>(store: &mut FlatStore<R>, row: R) -> Option<Placed> {
    if store.is_full() {
        return None;
    }
    store.ingest(row).ok()
}

// What the store of shared rows answers of a shared row, where it is searched first, and then not again.
pub(crate) fn offer_searched<R: Row>(store: &mut BlockStore<R>, row: Arc<R>) -> Option<Placed> {
    if store.is_full() {
        return None;
    }
    match store.search(&*row) {
        Ok(by) => Some(Placed::Kept { by }),
        Err(hint) => {
            let gone = store.pruned_at(&*row, hint).ok()?;
            let pruned = store.ingest_at(row, hint).ok()?;
            (gone.len() == pruned as usize).then_some(Placed::Stored { pruned })
        }
    }
}

// What the store of shared rows answers of a row.
pub(crate) fn offer<R: Row>(store: &mut BlockStore<R>, row: R) -> Option<Placed> {
    if store.is_full() {
        return None;
    }
    store.ingest(row).ok()
}
