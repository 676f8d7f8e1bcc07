//! A mesh of nodes that are offered rows and meet in pairs, as definitions over any areas and meetings, with its laws: a
//! node holds just what is live of the rows that reach it, and nodes that the same rows of an area reach agree there.
#![tactic(auto)]

pub mod laws;
