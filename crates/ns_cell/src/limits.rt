//! How many passes there may be.

/// The most passes of one cell.
pub const PASS_LIMIT: u32 = 65_536;
