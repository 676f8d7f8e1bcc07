//! Calls as definitions alone, over any objects, links and sessions: parts one behind the other, each of which goes on
//! whatever it meets, and the one status that is told at the end, with their laws.
#![tactic(auto)]

pub mod laws;
