//! The exchange of two sides as definitions alone, over abstract rows, boxes and cuts, with its laws: it ends, it is
//! short, both sides come to hold the same, and no peer is sent a row twice.
#![tactic(auto)]

pub mod laws;
