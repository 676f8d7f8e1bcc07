//! What the lines of a mesh are answered, over nodes of any kind: each line goes before those behind it.
//! The contract: the text is that of the lines, by what the nodes hold where a line asks for it.
#![tactic(auto)]

mod answer;
pub mod laws;
mod stores;

pub use answer::text_of;
pub use stores::MeshStores;
