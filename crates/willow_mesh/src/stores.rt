//! The nodes of a mesh that meet over what they hold.

ghost use Rattle.std.specs.Prelude.{◌≡◌, length, IfOk};
ghost use Rattle.mesh_rules.specs.Events.{after_event};
ghost use Rattle.mesh_core.specs.Exchanging.{exchanging};
ghost use Rattle.mesh_core.specs.Given.{IsAmong, event_of};
ghost use Rattle.mesh_core.specs.Held.{nodes_of};
ghost use Rattle.willow_mesh.specs.Generated.{generated_mesh};

use mesh_answers::MeshStores;
use mesh_core::{MeshEvent, MeshNodes};
use std::alloc::Global;
use willow_path::{NoMemory, UserKey};

/// The version of the exchange by which nodes meet.
const VERSION: u8 = 2;

/// The nodes of a mesh, each with its store.
#[derive(Drop)]
pub(crate) struct Stores {
    nodes: MeshNodes,
}

impl Stores {
    // The nodes behind an event.
    fn happen(self, alloc: Global, event: &MeshEvent) -> Result<Stores, NoMemory>
        requires { IsAmong (length self.nodes) event.now }
        ensures rows { IfOk result (λ made. nodes_of made.nodes ≡ after_event (exchanging 2) (nodes_of self.nodes) (event_of event.now)) }
        ensures count { IfOk result (λ made. length made.nodes ≡ length self.nodes) }
    {
        let nodes = self.nodes.happen(alloc, VERSION, event)?;
        Ok(Stores { nodes })
    }
}

impl MeshStores for Stores {
    ghost rules = { generated_mesh };

    ghost rows = { λ s. nodes_of s.nodes };

    ghost count = { λ s. length s.nodes };

    fn new(alloc: Global, nodes: u32) -> Result<Stores, NoMemory> {
        let nodes = MeshNodes::new(alloc, nodes)?;
        Ok(Stores { nodes })
    }

    fn offer(self, alloc: Global, node: u32, row: u32) -> Result<Stores, NoMemory> {
        self.happen(alloc, &MeshEvent::Offer { node, row })
    }

    fn meet(
        self,
        alloc: Global,
        left: u32,
        right: u32,
        subspace: Option<UserKey>,
        from: u64,
    ) -> Result<Stores, NoMemory> {
        self.happen(
            alloc,
            &MeshEvent::Meet {
                left,
                right,
                subspace,
                from,
            },
        )
    }

    fn hold_same(&self, left: u32, right: u32) -> bool {
        self.nodes.hold_same(left, right)
    }

    fn row_count(&self, node: u32) -> u32 {
        self.nodes.row_count(node)
    }
}
