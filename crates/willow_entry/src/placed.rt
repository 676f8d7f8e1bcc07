//! What becomes of a row that is offered to a store.

/// The greatest number of rows of a store.
pub const MAX_ROWS: usize = 4_294_967_295;

/// What a store did with a row.
#[derive(Clone, Copy, PartialEq, Eq)]
pub enum Placed {
    /// It was stored, and so many rows that it dominates went.
    Stored { pruned: u32 },
    /// The row at this position, counted from 0, equals or dominates it, so nothing changed.
    Kept { by: u32 },
}
