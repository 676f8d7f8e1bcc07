//! The lines that tell a mesh of nodes what happens in it, and ask what its nodes hold.
//! The contract: the lines answered are those that the bytes spell, and a refusal tells where the first wrong line begins.
#![tactic(auto)]

mod cut;
pub mod laws;
mod line;
mod read;
mod text;
mod word;

pub use line::{LAST_ROW, MOST_NODES, MeshLine};
pub use text::{MeshText, WrongLine, read_mesh};
