//! The limits of values.

/// The greatest number of rows that a word may name.
pub const MOST_ROWS: u32 = 65_536;

/// The greatest number of links that a word may name.
pub const MOST_LINKS: u32 = 64;

/// The most bytes of the name of a file.
pub const MOST_NAME_BYTES: usize = 128;

/// The most bytes of a place.
pub const MOST_PLACE_BYTES: usize = 255;

/// The greatest number of a port.
pub const MOST_PORT: u32 = 65_535;
