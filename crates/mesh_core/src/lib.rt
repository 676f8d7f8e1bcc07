//! A mesh of nodes in one process that are offered rows of the generator and meet in pairs.
//! Its one contract: a node holds live rows that reach it, and where fingerprints tell rows apart it covers each that does.
#![tactic(auto)]

mod event;
mod meeting;
mod nodes;
mod plain;
mod run;
mod shared;
mod taking;

pub use event::MeshEvent;
pub use nodes::MeshNodes;
pub use run::run_events;
