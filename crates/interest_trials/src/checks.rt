//! Whether rows are such that they may be offered.

ghost use Rattle.std.specs.Prelude.{◌≡◌, ◌^◌, ◌<◌, length, map, IsTrue};
ghost use Rattle.block_store.specs.BoxKinds.{IsOfOneNamespace};

use block_store::Snapshot;
use willow_entry::Row;
use willow_path::NamespaceKey;

// Whether the row is of the namespace.
fn is_of<R: Row>(row: &R, namespace: &NamespaceKey) -> bool
    ensures { IsTrue result → (R.value row.now).entry.namespace ≡ namespace.now }
{
    row.entry().namespace == *namespace
}

// Whether all rows are of the namespace, and at most 65,536.
pub(crate) fn are_of<R: Row>(rows: &Snapshot<R>, namespace: &NamespaceKey) -> bool
    ensures few { IsTrue result → length rows.now < 2 ^ 31 }
    ensures one { IsTrue result → IsOfOneNamespace (map R.value rows.now) }
{
    for at in 0..rows.len() {
        match rows.get(at) {
            None => unreachable!(),
            Some(row) => {
                if !is_of(row, namespace) {
                    return false;
                }
            }
        }
    }
    rows.len() <= 65_536
}
