//! Keys of one byte, paths of short components, and entries at them.

ghost use Rattle.std.specs.Prelude.{◌≡◌};

use std::alloc::Global;
use willow_entry::Entry;
use willow_path::{Digest, NamespaceKey, Path, UserKey};

// An open key with this byte throughout its body.
fn key(byte: u8) -> [u8; 33] {
    let mut bytes = [byte; 33];
    bytes[0] = 0;
    bytes
}

// The namespace of the trials' rows.
pub(crate) fn namespace() -> Option<NamespaceKey> {
    NamespaceKey::from_bytes(key(0x4e))
}

// The namespace and a subspace.
pub(crate) fn place(subspace: u8) -> Option<(NamespaceKey, UserKey)> {
    Some((namespace()?, UserKey::from_bytes(key(subspace))?))
}

// The path of components of these single bytes.
pub(crate) fn path_of(alloc: Global, parts: &[u8]) -> Option<Path> {
    let mut path = Path::empty(alloc);
    for part in parts {
        path.push(&[*part]).ok()?;
    }
    Some(path)
}

// The path of one component that spells the number.
pub(crate) fn number_path(alloc: Global, number: u16) -> Option<Path> {
    let mut path = Path::empty(alloc);
    path.push(&number.to_be_bytes()).ok()?;
    Some(path)
}

// A timestamp, the byte that the digest consists of, and a length.
pub(crate) type Rank = (u64, u8, u64);

// The entry of this rank at a path of a namespace and a subspace.
pub(crate) fn entry_at(place: (NamespaceKey, UserKey), path: Path, rank: Rank) -> Entry
    ensures namespace { result.namespace ≡ place.0 }
{
    let (namespace, subspace) = place;
    let (timestamp, digest, length) = rank;
    Entry {
        namespace,
        subspace,
        path,
        timestamp,
        length,
        digest: Digest([digest; 32]),
    }
}
