//! Whether rows are such that they may meet, a version is spoken, and an item may be heard.

ghost use Rattle.std.specs.Prelude.{◌≡◌, ◌≤◌, length, map, All, IsTrue};
ghost use Rattle.willow_entry.specs.Frame.{HasFrame};
ghost use Rattle.block_store.specs.BoxKinds.{IsOfOneNamespace};
ghost use Rattle.sync_msg.specs.Items.{HasPrints, item_value};
ghost use Rattle.sync_core.specs.SyncRules.{IsVersion};

use block_store::Snapshot;
use sync_core::Item;
use sync_pair::SNAPSHOT_MAX;
use willow_entry::Row;
use willow_path::NamespaceKey;

// Whether sessions speak the version.
pub(crate) fn is_spoken(version: u8) -> bool
    ensures { IsTrue result → IsVersion version }
{
    1 <= version && version <= 2
}

// Whether a cut in parts has points, and one fingerprint more; any other item may be heard.
pub(crate) fn has_prints<R: Row>(item: &Item<R>) -> bool
    ensures { IsTrue result → HasPrints (item_value R.value item.now) }
{
    match item {
        Item::Parts { points, prints } => points.len() > 0 && prints.len() == points.len() + 1,
        _ => true,
    }
}

// Whether the row's entry and token are short enough for a frame.
fn has_frame<R: Row>(row: &R) -> bool
    ensures { IsTrue result → HasFrame (R.value row.now) }
{
    row.entry_bytes().len() <= 65_536 && row.token_bytes().len() <= 65_536
}

// Whether the row is of the namespace and fits a frame.
fn fits<R: Row>(row: &R, namespace: &NamespaceKey) -> bool
    ensures of { IsTrue result → (R.value row.now).entry.namespace ≡ namespace.now }
    ensures framed { IsTrue result → HasFrame (R.value row.now) }
{
    row.entry().namespace == *namespace && has_frame(row)
}

// Whether all rows are of the namespace and fit frames, and they are not too many.
pub(crate) fn can_meet<R: Row>(rows: &Snapshot<R>, namespace: &NamespaceKey) -> bool
    ensures few { IsTrue result → length rows.now ≤ SNAPSHOT_MAX }
    ensures one { IsTrue result → IsOfOneNamespace (map R.value rows.now) }
    ensures framed { IsTrue result → All HasFrame (map R.value rows.now) }
{
    for at in 0..rows.len() {
        match rows.get(at) {
            None => unreachable!(),
            Some(row) => {
                if !fits(row, namespace) {
                    return false;
                }
            }
        }
    }
    rows.len() <= SNAPSHOT_MAX
}
