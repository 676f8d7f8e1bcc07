//! Areas of the Willow Data Model (Grouping Entries): which subspaces, paths and times they include.
//! Contracts say which triples of a key, a path and a time an area or a box includes.
#![tactic(auto)]

mod area;
mod area_codec;
mod box3;
mod cut;
pub mod laws;
mod times;
mod times_codec;

pub use area::Area;
pub use area_codec::read_area;
pub use box3::{Box3, box_of};
pub use cut::{CutAt, CutOutside};
pub use times::TimeRange;
