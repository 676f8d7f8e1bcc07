//! Where a row stands among blocks.

// A block and a place in it, each counted from 0. Behind all rows it is the number of blocks and 0.
#[derive(Clone, Copy)]
pub(crate) struct Spot {
    pub(crate) block: usize,
    pub(crate) row: usize,
}
