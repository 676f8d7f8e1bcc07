//! What nodes hold behind events, told in numbers.

ghost use Rattle.std.specs.Prelude.{◌<◌, All};
ghost use Rattle.sync_core.specs.SyncRules.{IsVersion};
ghost use Rattle.mesh_core.specs.Given.{IsAmong};

use crate::checks::{are_among, is_spoken};
use mesh_core::{MeshEvent, MeshNodes, run_events};
use std::alloc::Global;

// Whether two nodes hold the same rows behind the events, and how many each holds.
fn compared_in(
    alloc: Global,
    version: u8,
    nodes: u32,
    events: &[MeshEvent],
    left: u32,
    right: u32,
) -> Option<(bool, u32, u32)>
    requires version { IsVersion version }
    requires among { All (IsAmong nodes) events.now }
    requires left { left < nodes }
    requires right { right < nodes }
{
    let mut mesh = MeshNodes::new(alloc, nodes).ok()?;
    for event in events {
        mesh = mesh.happen(alloc, version, event).ok()?;
    }
    Some((
        mesh.hold_same(left, right),
        mesh.row_count(left),
        mesh.row_count(right),
    ))
}

// The same where they may happen.
pub(crate) fn compared(
    alloc: Global,
    version: u8,
    nodes: u32,
    events: &[MeshEvent],
    left: u32,
    right: u32,
) -> Option<(bool, u32, u32)> {
    if is_spoken(version) && are_among(nodes, events) && left < nodes && right < nodes {
        compared_in(alloc, version, nodes, events, left, right)
    } else {
        None
    }
}

// How many rows each node holds behind the events, a digit each.
pub(crate) fn counted(alloc: Global, version: u8, nodes: u32, events: &[MeshEvent]) -> Option<u64> {
    if !is_spoken(version) || !are_among(nodes, events) {
        return None;
    }
    let stores = run_events(alloc, version, nodes, events).ok()?;
    let mut digits = 0_u64;
    for store in &stores {
        digits = digits.wrapping_mul(10).wrapping_add(u64::from(store.len()));
    }
    Some(digits)
}
