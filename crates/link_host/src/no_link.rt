//! A job for which no link came.

use willow_outside::Fault;

/// A job for which no link came, and why.
#[derive(Drop)]
pub struct NoLink<J> {
    /// The job, as it was given.
    pub job: J,
    /// Why the accept failed.
    pub fault: Fault,
}
