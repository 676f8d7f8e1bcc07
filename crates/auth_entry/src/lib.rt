//! Rows that are authorised: whose write token gives leave for their entry (Willow Data Model, Meadowcap).
//! The contract: a row is refused exactly at the first condition that fails, and an authorised one keeps that none does.
#![tactic(auto)]

mod authorised;
mod checker;
mod checks;
mod chunks;
pub mod laws;
mod refusal;
mod signatures;
mod standing;
mod together;
mod turns;
mod unknown;
mod work;

pub use authorised::{AuthorisedEntry, authorise};
pub use checker::{Checker, NewChecker, PlainChecker};
pub use mc_cap::RowRefusal;
pub use refusal::{check_capability, check_entry, check_row, claim_refusal};
