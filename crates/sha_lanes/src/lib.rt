//! SHA-256 of four messages side by side, one in each lane of vectors of 32-bit words (FIPS 180-4).
#![tactic(auto)]

mod chain;
mod compression;
mod constants;
mod first_blocks;
mod functions;
mod loading;
mod message;
mod messages;
mod running;
mod schedule;
mod step;
mod storing;
mod vectors;

pub use chain::Chain;
pub use message::Message;
pub use messages::{sha256_all, sha256_four};
pub use running::run_chains;
