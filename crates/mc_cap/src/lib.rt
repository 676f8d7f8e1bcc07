//! Capabilities (Meadowcap): who may read or write which part of a namespace, by chains of delegations.
//! The contract: `check` refuses exactly at the first condition of a valid chain that fails.
#![tactic(auto)]

mod capability;
mod chain;
mod check;
mod delegate;
pub mod laws;
mod messages;
mod refusal;
mod signature;
mod signed;

pub use capability::{Capability, Mode};
pub use chain::{Chain, Delegation, MAX_CHAIN};
pub use check::{ChainRefusal, MAX_DELEGATIONS};
pub use messages::initial_message;
pub use refusal::{RefusedRow, RowRefusal};
pub use signature::Signature;
pub use signed::SignedMessage;
