//! The rows that workers offer: none covers another.

ghost use Rattle.std.specs.Prelude.{◌≡◌, All, IfSome};

use std::alloc::Global;
use willow_entry::{BareRow, Entry};
use willow_path::{Digest, NamespaceKey, Path, UserKey};

// An open key whose body is this byte, again and again, behind a number.
fn key(number: u32) -> [u8; 33] {
    let mut bytes = [0x55; 33];
    bytes[0] = 0;
    let number = number.to_be_bytes();
    for at in 0..4usize {
        bytes[at + 1] = number[at];
    }
    bytes
}

/// The namespace of all rows.
pub(crate) fn namespace() -> Option<NamespaceKey> {
    NamespaceKey::from_bytes(key(u32::MAX))
}

// The row of an author at the path of this number. The less the number, the later the row.
fn row(alloc: Global, namespace: &NamespaceKey, author: u32, number: u32) -> Option<BareRow>
    ensures { IfSome result (λ row. row.entry.namespace ≡ namespace.now) }
{
    let mut path = Path::empty(alloc);
    path.push(&number.to_be_bytes()).ok()?;
    let entry = Entry {
        namespace: *namespace,
        subspace: UserKey::from_bytes(key(author))?,
        path,
        timestamp: u64::from(u32::MAX - number),
        length: 1,
        digest: Digest([0x11; 32]),
    };
    BareRow::new(alloc, entry, Vec::new(alloc)).ok()
}

/// So many rows of each of these authors, whose rows take turns. From the last to the first they rise in time.
pub(crate) fn rows(
    alloc: Global,
    namespace: &NamespaceKey,
    first: u32,
    end: u32,
    count: u32,
) -> Option<Vec<BareRow>>
    ensures { IfSome result (λ rows. All (λ row. row.entry.namespace ≡ namespace.now) rows.items) }
{
    let mut rows = Vec::new(alloc);
    for number in 0..count {
        for author in first..end {
            rows.push(row(alloc, namespace, author, number)?).ok()?;
        }
    }
    Some(rows)
}
