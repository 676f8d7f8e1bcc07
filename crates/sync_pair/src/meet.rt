//! The exchange of two stores in memory.

ghost use Rattle.std.specs.Prelude.{◌≡◌, ◌≤◌, length, map, option_map, All, IfOk};
ghost use Rattle.std.specs.Option.{option_copied};
ghost use Rattle.willow_area.specs.AreaBox.{area_box};
ghost use Rattle.willow_entry.specs.Frame.{HasFrame};
ghost use Rattle.block_store.specs.BoxKinds.{IsOfOneNamespace};
ghost use Rattle.sync_core.specs.SyncRules.{IsVersion};
ghost use Rattle.sync_pair.specs.Meeting.{IsMeeting};

use crate::pass::next_turn;
use crate::peer::Peer;
use block_store::Snapshot;
use std::alloc::Global;
use sync_core::{Role, SNAPSHOT_MAX};
use willow_area::Area;
use willow_entry::Row;
use willow_path::NoMemory;

/// What came of an exchange of two stores.
#[derive(Drop)]
pub struct PairRun<R> {
    /// The bytes of each turn, the left side's and the right side's by turns.
    pub turns: Vec<Vec<u8>>,
    /// The rows that the left side got.
    pub to_left: Vec<R>,
    /// The rows that the right side got.
    pub to_right: Vec<R>,
    /// The number of counted items of both sides.
    pub items: u32,
}

/// The exchange of the rows of two snapshots in an area, in a session of version 1 or 2, with the left side as the
/// caller; without an area each side only says farewell. Neither snapshot is changed. Each has at most `SNAPSHOT_MAX`
/// rows, all of one namespace, and the body of each row has at most `MAX_FRAME` bytes.
pub fn meet_rows<R: Row>(
    alloc: Global,
    version: u8,
    left: &Snapshot<R>,
    right: &Snapshot<R>,
    area: Option<&Area>,
) -> Result<PairRun<R>, NoMemory>
    requires version { IsVersion version }
    requires left_few { length left.now ≤ SNAPSHOT_MAX }
    requires left_one { IsOfOneNamespace (map R.value left.now) }
    requires left_framed { All HasFrame (map R.value left.now) }
    requires right_few { length right.now ≤ SNAPSHOT_MAX }
    requires right_one { IsOfOneNamespace (map R.value right.now) }
    requires right_framed { All HasFrame (map R.value right.now) }
    ensures meeting { IfOk result (IsMeeting version R.value (map R.value left.now) (map R.value right.now) (option_map area_box (option_copied area.entry))) }
{
    let mut caller = Peer::begin(alloc, version, Role::Caller, left, area)?;
    let mut answerer = Peer::begin(alloc, version, Role::Answerer, right, area)?;
    let mut turns = Vec::new(alloc);
    'turns: while !caller.is_done() {
        turns.push(next_turn(alloc, &mut caller, &mut answerer)?)?;
    }
    let (sent, read) = caller.side.items();
    Ok(PairRun {
        turns,
        to_left: caller.got,
        to_right: answerer.got,
        items: sent + read,
    })
}
