//! How a session between two stores ends, be it before anything is compared or in the midst of it. The causes stand
//! here alone, so that whoever tells them needs nothing of what a session does.
#![tactic(auto)]

mod end;
mod refusal;

pub use end::SessionEnd;
pub use refusal::HelloRefusal;
