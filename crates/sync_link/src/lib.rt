//! A session between two stores over bytes: each greets the other, and then they exchange their rows in the area that both
//! may read.
//! The contract: what a side writes, which rows it takes and how it ends are one function of its rows in that area and of
//! the bytes that it reads.
#![tactic(auto)]

pub mod laws;
mod plan;
mod run;
pub mod run_laws;
mod side;

pub use area_interest::Interest;
pub use mc_cap::RefusedRow;
pub use plan::{SessionPlan, SessionReport};
pub use run::opening::known_plan;
pub use run::session::run_session;
pub use session_end::SessionEnd;
