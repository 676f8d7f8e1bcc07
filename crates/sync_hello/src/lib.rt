//! Hellos: how two stores greet each other before they compare what they hold. Each says what it wants to see, shows the
//! capability that lets it, and proves that the capability is its own.
//! The contract: a hello that is read is spelled by just the bytes taken, and one is refused exactly at the first
//! condition that fails; what two hellos have in common, both capabilities grant; and a session speaks the highest version
//! that both sides do.
#![tactic(auto)]

mod check;
mod common;
mod hello;
pub mod laws;
mod proof;
mod read;
mod version;

pub use check::check_hello;
pub use common::common_area;
pub use hello::Hello;
pub use proof::{check_proof, proof_message};
pub use read::{HelloStep, read_hello};
pub use session_end::{HelloRefusal, SessionEnd};
pub use version::{HIGHEST_VERSION, session_version};
