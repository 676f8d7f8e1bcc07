//! Why an exchange is refused.

/// Why the items of the other side are refused, though each is in the grammar.
#[derive(Clone, Copy, Debug, PartialEq, Eq)]
pub enum CoreRefusal {
    /// A cut at a point where its box cannot be cut, or at points that do not rise.
    BadCut,
    /// An item that may not come where it came.
    ItemMismatch,
    /// A row outside the box that it was sent for.
    EntryOutside,
    /// Rows of one item that do not rise.
    RowsOutOfOrder,
    /// More counted items than an exchange may have.
    TooManyItems {
        /// How many there are.
        items: u32,
    },
}
