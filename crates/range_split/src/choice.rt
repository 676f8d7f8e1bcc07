//! The choice between the rows of a box and a cut of it.

ghost use Rattle.std.specs.Prelude.{◌≡◌, ◌<◌, length, map};
ghost use Rattle.block_store.specs.InBox.{rows_in};
ghost use Rattle.range_split.specs.Choice.{Chooses};

use crate::least::{is_above, least_above};
use crate::rows::nth;
use block_store::Snapshot;
use willow_area::Box3;
use willow_entry::Row;
use willow_path::UserKey;

/// The greatest number of rows that are told without a cut of their box.
pub const ENTRIES_MAX: u32 = 16;

/// How the rows of a box are told.
#[derive(Clone, Copy, PartialEq, Eq)]
pub enum Choice {
    /// By all of them.
    Entries,
    /// By a cut of the box at this subspace.
    AtSubspace(UserKey),
    /// By a cut of the box at the path of the row that stands at this position of the snapshot.
    AtPathOf(u32),
}

/// What is chosen for the rows of the snapshot that the box includes, in the snapshot's order.
///
/// Up to `ENTRIES_MAX` rows are told by all of them. Of more rows, let the middle one be that before which half of
/// them stand, rounded down. Where its subspace is above the first one's, the cut is there; else at the least subspace
/// of any of the rows that is above the first one's, where there is one; else at the path of the middle row, of which
/// the position in the snapshot is answered. It takes no memory.
#[tactic(auto, using(crate::proofs::Choosing::choice_few))]
pub fn choose<R: Row>(snapshot: &Snapshot<R>, area: &Box3) -> Choice
    ensures { Chooses area.now (map R.value snapshot.now) result }
{
    let count = snapshot.count_in(area);
    if count <= ENTRIES_MAX {
        Choice::Entries
    } else {
        cut(snapshot, area, count)
    }
}

// Where the box of so many rows is cut. No row outside the first and the last of them is looked at.
fn cut<R: Row>(snapshot: &Snapshot<R>, area: &Box3, count: u32) -> Choice
    requires many { ENTRIES_MAX < count }
    requires count { count ≡ length (rows_in area.now (map R.value snapshot.now)) }
    ensures { Chooses area.now (map R.value snapshot.now) result }
{
    let (start, first) = nth(snapshot, area, 0);
    let (at, middle) = nth(snapshot, area, count / 2);
    let low = first.entry().subspace;
    let subspace = middle.entry().subspace;
    if is_above(&subspace, &low) {
        return Choice::AtSubspace(subspace);
    }
    let (last, _) = nth(snapshot, area, count - 1);
    match least_above(snapshot, area, &low, start, last) {
        Some(key) => Choice::AtSubspace(key),
        None => Choice::AtPathOf(at),
    }
}
