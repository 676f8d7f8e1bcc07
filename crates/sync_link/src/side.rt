//! The own side of a session, with no link at hand: it takes in the bytes of the other side, and says what is due to them.

pub(crate) mod awaited;
pub(crate) mod find;
pub(crate) mod greet;
pub(crate) mod hear;
pub(crate) mod inbox;
pub(crate) mod lists;
pub(crate) mod own_side;
pub(crate) mod participant;
pub(crate) mod proof;
pub(crate) mod speak;
pub(crate) mod standing;
pub(crate) mod take;
pub(crate) mod take_all;
