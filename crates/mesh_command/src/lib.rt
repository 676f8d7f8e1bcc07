//! The one command over a mesh: its lines are read, run in order over the nodes, and what they ask for is written.
//! The contract: at status 0 the text of the input's lines is written, and each other status tells its cause.
#![tactic(auto)]

mod bytes;
mod run;

pub use run::{MESH_LIMIT, run_mesh};
