//! Why a row is refused that claims a capability.

use crate::check::ChainRefusal;

/// Why a row is not authorised in a namespace. Where several hold, the first is told.
#[derive(Clone, Copy, Debug, PartialEq, Eq)]
pub enum RowRefusal {
    /// The entry or the capability is of another namespace.
    WrongNamespace,
    /// The capability is not for writing.
    NotWrite,
    /// The capability is not valid.
    Chain(ChainRefusal),
    /// The capability's grant does not include the entry.
    OutsideGrant,
    /// The capability's receiver did not sign the entry.
    BadEntrySignature,
}

/// A row that is not authorised: its number among the rows read, from 1, and why.
#[derive(Clone, Copy, Debug, PartialEq, Eq)]
pub struct RefusedRow {
    /// Its number, from 1.
    pub row: u64,
    /// The first condition that fails.
    pub refusal: RowRefusal,
}
