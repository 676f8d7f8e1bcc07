//! Where a row stands among rows in blocks, and what covers it.

pub(crate) mod ends;
pub(crate) mod guess;
pub(crate) mod hint;
pub(crate) mod index;
pub(crate) mod near;
pub(crate) mod place;
pub(crate) mod search;
pub(crate) mod spot;
