//! What a side of an exchange does next.

/// The greatest number of rows of a side.
pub const SNAPSHOT_MAX: u32 = 65_536;

/// What a side of an exchange does next.
#[derive(Clone, Copy, PartialEq, Eq)]
pub enum Stage {
    /// It says an item.
    Writing,
    /// It reads an item.
    Reading,
    /// Nothing: both sides have said farewell.
    Done,
    /// Nothing: an item that it read was refused.
    Refused,
}
