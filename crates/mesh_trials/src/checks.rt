//! Whether events may happen in a mesh.

ghost use Rattle.std.specs.Prelude.{IsTrue, All};
ghost use Rattle.sync_core.specs.SyncRules.{IsVersion};
ghost use Rattle.mesh_core.specs.Given.{IsAmong};

use mesh_core::MeshEvent;
use peer_listing::GENERATED_ROWS;

// Whether the version is spoken.
pub(crate) fn is_spoken(version: u8) -> bool
    ensures { IsTrue result → IsVersion version }
{
    1 <= version && version <= 2
}

// Whether the event is one of so many nodes.
fn is_among(nodes: u32, event: &MeshEvent) -> bool
    ensures { IsTrue result → IsAmong nodes event.now }
{
    match *event {
        MeshEvent::Offer { node, row } => node < nodes && row < GENERATED_ROWS,
        MeshEvent::Meet { left, right, .. } => left < nodes && right < nodes && left != right,
    }
}

// Whether all of them are.
pub(crate) fn are_among(nodes: u32, events: &[MeshEvent]) -> bool
    ensures { IsTrue result → All (IsAmong nodes) events.now }
{
    for event in events {
        if !is_among(nodes, event) {
            return false;
        }
    }
    true
}
