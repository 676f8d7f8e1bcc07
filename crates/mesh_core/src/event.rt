//! What happens in a mesh.

use willow_path::UserKey;

/// A node is offered a row, or two nodes meet.
#[derive(Clone, Copy, PartialEq, Eq)]
pub enum MeshEvent {
    /// The node is offered the row of the generator that has this number.
    Offer {
        node: u32,
        row: u32,
    },
    /// The two nodes exchange their rows of this subspace, or of all, with all paths, from this time on; the left one
    /// begins.
    Meet {
        left: u32,
        right: u32,
        subspace: Option<UserKey>,
        from: u64,
    },
}
