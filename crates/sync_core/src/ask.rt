//! Asks: what the sides of an exchange have to answer.

use willow_area::Box3;
use willow_entry::BareRow;

// What this side has to answer.
#[derive(Drop)]
pub(crate) enum Ask {
    // A box with the peer's fingerprint of it.
    Print { area: Box3, print: [u8; 32] },
    // A box with the rows of it that the peer sent.
    Sent { area: Box3, rows: Vec<BareRow> },
}

// What the peer has to answer.
#[derive(Drop)]
pub(crate) enum Owed {
    // A box with the own fingerprint of it.
    Print { area: Box3, print: [u8; 32] },
    // A box whose own rows were sent.
    Rest { area: Box3 },
}
