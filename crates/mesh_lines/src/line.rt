//! A line of a mesh.

use willow_path::UserKey;

/// At most so many nodes stand in a mesh.
pub const MOST_NODES: u32 = 64;

/// The number of the last row that can be offered.
pub const LAST_ROW: u32 = 65_535;

/// A line behind the first.
#[derive(Clone, Copy, PartialEq, Eq)]
pub enum MeshLine {
    /// The node is offered the row of this number.
    Offer {
        node: u32,
        row: u32,
    },
    /// The two nodes meet, the left one as the caller, over the rows of the subspace, or of all subspaces, from this time on.
    Meet {
        left: u32,
        right: u32,
        subspace: Option<UserKey>,
        from: u64,
    },
    /// It is asked whether the two nodes hold the same rows.
    Same {
        left: u32,
        right: u32,
    },
}
