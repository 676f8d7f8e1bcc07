//! The nodes of a mesh, as a run uses them.

ghost use Rattle.std.specs.Prelude.{◌≡◌, ◌≢◌, ◌↔◌, ℕ, ◌<◌, ◌≤◌, IsTrue, IfOk, length};
ghost use Rattle.mesh_lines.specs.declared.line.TheConstants.{LAST_ROW, MOST_NODES};
ghost use Rattle.mesh_rules.specs.Events.{Meet, Nodes, Offer, after_event, empty_nodes};
ghost use Rattle.mesh_answers.specs.Rules.{MeshRules, line_area};

use std::alloc::Global;
use willow_path::{NoMemory, UserKey};

/// Nodes that are offered rows and meet in pairs, each named by its number. An event takes the nodes and answers them
/// behind it, so that want of memory leaves nothing half done.
pub trait MeshStores: Sized + Drop {
    // which rows can be offered, and what a meeting leaves to its nodes
    ghost rules: { MeshRules };

    // the rows that each node holds
    ghost rows: { Self → Nodes };

    // how many nodes there are
    ghost count: { Self → ℕ };

    /// So many nodes without rows.
    fn new(alloc: Global, nodes: u32) -> Result<Self, NoMemory>
        requires some { 1 ≤ nodes }
        requires few { nodes ≤ MOST_NODES }
        ensures rows { IfOk result (λ made. rows made ≡ empty_nodes) }
        ensures count { IfOk result (λ made. count made ≡ nodes) };

    /// The nodes where one was offered a row.
    fn offer(self, alloc: Global, node: u32, row: u32) -> Result<Self, NoMemory>
        requires node { node < count self }
        requires row { row ≤ LAST_ROW }
        ensures rows { IfOk result (λ made. rows made ≡ after_event rules.mesh (rows self) (Offer node (rules.row row))) }
        ensures count { IfOk result (λ made. count made ≡ count self) };

    /// The nodes where two met, the left one as the caller, over the rows of a subspace, or of all, from a time on.
    fn meet(
        self,
        alloc: Global,
        left: u32,
        right: u32,
        subspace: Option<UserKey>,
        from: u64,
    ) -> Result<Self, NoMemory>
        requires left { left < count self }
        requires right { right < count self }
        requires apart { left ≢ right }
        ensures rows { IfOk result (λ made. rows made ≡ after_event rules.mesh (rows self) (Meet left right (line_area subspace from))) }
        ensures count { IfOk result (λ made. count made ≡ count self) };

    /// Whether two nodes hold the same rows.
    fn hold_same(&self, left: u32, right: u32) -> bool
        requires left { left < count self.now }
        requires right { right < count self.now }
        ensures { IsTrue result ↔ (rows self.now left ≡ rows self.now right) };

    /// How many rows a node holds.
    fn row_count(&self, node: u32) -> u32
        requires { node < count self.now }
        ensures { result ≡ length (rows self.now node) };
}
