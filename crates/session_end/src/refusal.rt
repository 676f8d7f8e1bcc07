//! Why a side is refused before anything is compared.

use mc_cap::ChainRefusal;

/// Why a hello or a proof is refused. Of a hello the first cause that holds is told, of those before `BadProof`.
#[derive(Clone, Copy, Debug, PartialEq, Eq)]
pub enum HelloRefusal {
    /// The version is 0.
    VersionUnknown,
    /// The capability is of another namespace.
    WrongNamespace,
    /// The capability is not for reading.
    NotRead,
    /// The capability is not valid.
    Chain(ChainRefusal),
    /// The ask is not within what the capability grants.
    AskOutsideGrant,
    /// The capability's receiver did not sign this exchange as this side.
    BadProof,
}
