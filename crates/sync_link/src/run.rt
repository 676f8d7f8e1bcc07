//! A session over a link: what is read of it is given to the own side, the rows that come are offered to a cell, and what is due is
//! written.

pub(crate) mod intake;
pub(crate) mod judge;
pub(crate) mod opening;
pub(crate) mod piece;
pub(crate) mod session;
pub(crate) mod waiting;
pub(crate) mod writing;
