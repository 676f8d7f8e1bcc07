//! The run of a mesh.

ghost use Rattle.std.specs.Prelude.{◌≡◌, length, All, IfOk};
ghost use Rattle.willow_entry.specs.Row.{AreLive};
ghost use Rattle.sync_core.specs.SyncRules.{IsVersion};
ghost use Rattle.mesh_rules.specs.Events.{node_rows};
ghost use Rattle.mesh_rules.specs.Laws.{HoldsOnlyReached};
ghost use Rattle.mesh_core.specs.Given.{events_of, MeetsWithinLimits, IsAmong};
ghost use Rattle.mesh_core.specs.Areas.{has_row};
ghost use Rattle.mesh_core.specs.Exchanging.{exchanging, TellApart};
ghost use Rattle.mesh_core.specs.Held.{EachNode, EachTwo};
ghost use Rattle.mesh_core.specs.Promises.{CoversReached, HoldsAllOffered, HoldSame};

use crate::event::MeshEvent;
use crate::meeting::area_from;
use crate::nodes::MeshNodes;
use block_store::Snapshot;
use cap_codec::RawRow;
use std::alloc::Global;
use willow_path::NoMemory;

// Does nothing: it is called for its clause, that the area of a meeting is within the limits.
fn known(alloc: Global, event: &MeshEvent)
    ensures { MeetsWithinLimits event.now }
{
    if let MeshEvent::Meet { subspace, from, .. } = *event {
        area_from(alloc, subspace, from).known();
    }
}

/// What so many nodes hold behind the events, which happen one after the other; at first they hold nothing. Meetings are
/// exchanges of version 1 or 2. The numbers in the events are below that of the nodes, the rows are the generator's, and no
/// node meets itself. A node holds live rows, and only rows that reach it. Where the fingerprints of each meeting tell rows
/// apart, it covers all that reach it; and where all rows offered of an area with all paths and no end of times reach it,
/// it holds there what is live of all rows offered, so that two such nodes hold the same there.
pub fn run_events(
    alloc: Global,
    version: u8,
    nodes: u32,
    events: &[MeshEvent],
) -> Result<Vec<Snapshot<RawRow>>, NoMemory>
    requires version { IsVersion version }
    requires among { All (IsAmong nodes) events.now }
    ensures as_many { IfOk result (λ stores. length stores.items ≡ nodes) }
    ensures run { IfOk result (λ stores. EachNode (λ i rows. rows ≡ node_rows (exchanging version) (events_of events.now) i) stores.items) }
    ensures live { IfOk result (λ stores. EachNode (λ i rows. AreLive rows) stores.items) }
    ensures only { IfOk result (λ stores. EachNode (HoldsOnlyReached has_row (events_of events.now)) stores.items) }
    ensures reached { TellApart version (events_of events.now) → IfOk result (λ stores. EachNode (CoversReached (events_of events.now)) stores.items) }
    ensures all { TellApart version (events_of events.now) → IfOk result (λ stores. EachNode (HoldsAllOffered (events_of events.now)) stores.items) }
    ensures agree { TellApart version (events_of events.now) → IfOk result (λ stores. EachTwo (HoldSame (events_of events.now)) stores.items) }
{
    let mut mesh = MeshNodes::new(alloc, nodes)?;
    for event in events {
        known(alloc, event);
        mesh = mesh.happen(alloc, version, event)?;
    }
    mesh.snapshots(alloc)
}
