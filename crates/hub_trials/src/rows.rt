//! Rows and areas at paths of one-byte components.

use std::alloc::Global;
use willow_area::{Area, TimeRange};
use willow_entry::{BareRow, Entry, LogRow};
use willow_path::{Digest, NamespaceKey, Path, UserKey};

// The path of these components.
fn path(alloc: Global, parts: &[u8]) -> Option<Path> {
    let mut path = Path::empty(alloc);
    for part in parts {
        path.push(&[*part]).ok()?;
    }
    Some(path)
}

// Any subspace below a path, at all times.
pub(crate) fn area(alloc: Global, parts: &[u8]) -> Option<Area> {
    Some(Area {
        subspace: None,
        path: path(alloc, parts)?,
        times: TimeRange::new(0, None)?,
    })
}

// An open key with this byte throughout its body.
fn key(byte: u8) -> [u8; 33] {
    let mut bytes = [byte; 33];
    bytes[0] = 0;
    bytes
}

// The entry at a path.
fn entry(path: Path) -> Option<Entry> {
    Some(Entry {
        namespace: NamespaceKey::from_bytes(key(0x4e))?,
        subspace: UserKey::from_bytes(key(0x55))?,
        path,
        timestamp: 5,
        length: 1,
        digest: Digest([0x11; 32]),
    })
}

// A row of a log at a path.
fn row(alloc: Global, parts: &[u8]) -> Option<LogRow<BareRow>> {
    let entry = entry(path(alloc, parts)?)?;
    let row = BareRow::new(alloc, entry, Vec::new(alloc)).ok()?;
    Some(LogRow { pass: 0, row })
}

// Rows at paths that stand in a text, with a space behind each.
pub(crate) fn slice(alloc: Global, text: &[u8]) -> Option<Vec<LogRow<BareRow>>> {
    let mut rows = Vec::new(alloc);
    let mut parts = Vec::new(alloc);
    for byte in text {
        if *byte == b' ' {
            rows.push(row(alloc, &parts)?).ok()?;
            parts.clear();
        } else {
            parts.push(*byte).ok()?;
        }
    }
    Some(rows)
}
