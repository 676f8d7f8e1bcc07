//! Which signatures are accepted: what a scheme of keys answers, of one and of many, and what a signer gives.
//! The contract: a scheme answers by the rules of its type; a signer gives only signatures of its relation.
#![tactic(auto)]

mod answered;
mod claim;
mod digests;
pub mod laws;
mod many;
mod open;
mod scheme;
mod signer;
mod together;

pub use answered::Answered;
pub use claim::Claim;
pub use many::verify_each;
pub use open::{OpenScheme, OpenSigner};
pub use scheme::{Scheme, Verify, VerifyMany};
pub use signer::{MAX_SIGNATURE, SignRefusal, Signer};
pub use together::verify_together;
