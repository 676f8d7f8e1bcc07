//! What is told of a feed that was read whole.

use mc_cap::RowRefusal;

/// The numbers of a feed that was read whole, in rows.
#[derive(Clone, Copy, Debug, PartialEq, Eq)]
pub struct FollowReport {
    /// All of them.
    pub read: u32,
    /// Authorised ones that the log did not cover: they are in it now.
    pub stored: u32,
    /// Authorised ones that a row of the log covers.
    pub kept: u32,
    /// Those that are not authorised.
    pub refused: u32,
    /// The number, from 1, of the first that is not authorised, and why; None where there is none.
    pub first: Option<(u32, RowRefusal)>,
}
