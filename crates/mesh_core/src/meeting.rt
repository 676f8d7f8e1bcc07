//! Two nodes meet.

ghost use Rattle.std.specs.Prelude.{◌≡◌, ◌≢◌, ◌<◌, Some, length, map, OnOk, IfOk};
ghost use Rattle.willow_area.specs.Area.{IsArea};
ghost use Rattle.willow_area.specs.AreaBox.{area_box};
ghost use Rattle.cap_codec.specs.Rows.{row_of};
ghost use Rattle.exchange_rules.specs.Items.{to_left, to_right};
ghost use Rattle.sync_core.specs.SyncRules.{IsVersion};
ghost use Rattle.sync_pair.specs.Meeting.{meeting};
ghost use Rattle.mesh_rules.specs.Events.{Meet, after_event};
ghost use Rattle.mesh_core.specs.Given.{area_from};
ghost use Rattle.mesh_core.specs.Exchanging.{exchanging};
ghost use Rattle.mesh_core.specs.Held.{nodes_of};
ghost use Rattle.mesh_core.specs.Generated.{HoldGenerated};

use crate::shared::MeshRow;
use crate::taking::take_at;
use block_store::{BlockStore, Snapshot};
use std::alloc::Global;
use sync_pair::{PairRun, meet_rows};
use willow_area::{Area, TimeRange};
use willow_path::{NoMemory, Path, UserKey};

/// The area of a subspace, or of all, with all paths, from a time on.
pub(crate) fn area_from(alloc: Global, subspace: Option<UserKey>, from: u64) -> Area
    ensures { result ≡ area_from subspace from }
{
    match TimeRange::new(from, None) {
        None => unreachable!(),
        Some(times) => Area {
            subspace,
            path: Path::empty(alloc),
            times,
        },
    }
}

// The rows of a node as they are.
fn rows_at(stores: &[BlockStore<MeshRow>], node: usize) -> Result<Snapshot<MeshRow>, NoMemory>
    requires { node < length stores.now }
    ensures { IfOk result (λ rows. map row_of rows ≡ nodes_of stores.now node) }
{
    stores[node].snapshot()
}

// What two nodes send each other that meet over the area.
fn exchange(
    alloc: Global,
    version: u8,
    stores: &[BlockStore<MeshRow>],
    left: usize,
    right: usize,
    area: &Area,
) -> Result<PairRun<MeshRow>, NoMemory>
    requires version { IsVersion version }
    requires left { left < length stores.now }
    requires right { right < length stores.now }
    requires generated { HoldGenerated (nodes_of stores.now) }
    ensures to_left { IfOk result (λ run. map row_of run.to_left.items ≡ to_left (meeting version (nodes_of stores.now left) (nodes_of stores.now right) (Some (area_box area.now)))) }
    ensures to_right { IfOk result (λ run. map row_of run.to_right.items ≡ to_right (meeting version (nodes_of stores.now left) (nodes_of stores.now right) (Some (area_box area.now)))) }
{
    let own = rows_at(stores, left)?;
    let others = rows_at(stores, right)?;
    meet_rows(alloc, version, &own, &others, Some(area))
}

/// Two nodes meet over the area, and each takes the rows that come to it.
pub(crate) fn meet(
    alloc: Global,
    version: u8,
    stores: &mut Vec<BlockStore<MeshRow>>,
    left: usize,
    right: usize,
    area: &Area,
) -> Result<(), NoMemory>
    requires version { IsVersion version }
    requires left { left < length stores.old.items }
    requires right { right < length stores.old.items }
    requires other { left ≢ right }
    requires generated { HoldGenerated (nodes_of stores.old.items) }
    ensures met { OnOk result (nodes_of stores.new.items ≡ after_event (exchanging version) (nodes_of stores.old.items) (Meet left right area.now)) }
    ensures as_many { length stores.new.items ≡ length stores.old.items }
{
    let run = exchange(alloc, version, stores, left, right, area)?;
    let PairRun {
        turns: _,
        to_left,
        to_right,
        items: _,
    } = run;
    take_at(stores, right, to_right)?;
    take_at(stores, left, to_left)
}
