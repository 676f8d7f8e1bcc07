//! Signatures of RFC 8554 over SHA-256: their verification, the signer, and key files whose indices are used once.
//! Verification answers exactly what the RFC accepts, what a signer makes is accepted, and no index is handed out twice.
#![tactic(auto)]

mod bytes;
mod hashing;
mod height;
mod key;
mod key_chains;
mod known_tree;
mod laws;
mod one_time;
mod one_use;
mod reserve;
mod scheme;
mod signing;
mod tree;
mod verify;

pub use height::Height;
pub use key::LmsKey;
pub use laws::{indices_are_handed_out_once, made_signatures_are_accepted};
pub use one_use::OneUse;
pub use reserve::{KeyRefusal, reserve_keys, reserve_keys_on};
pub use scheme::PeerScheme;
pub use verify::lms_verify;
