//! The limits of a path.

/// The most bytes of a component.
pub const MAX_PART: usize = 255;

/// The most components of a path.
pub const MAX_PARTS: usize = 255;

/// The most bytes of all components of a path together.
pub const MAX_TOTAL: usize = 4096;
