//! Following: behind its session a caller is fed the rows that came into the log since that began.
//! The contract: a feed is just those rows of the log that the area includes and that are not of the session's own pass; one who
//! follows takes the rows of a feed and no others, and has each authorised one, or one that replaces it.
#![tactic(auto)]

mod feeding;
mod find;
mod following;
mod hear;
mod intake;
pub mod laws;
mod piece;
mod place;
mod report;
mod take;

pub use feeding::{Fed, feed};
pub use following::follow;
pub use report::FollowReport;
