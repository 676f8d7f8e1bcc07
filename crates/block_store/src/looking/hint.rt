//! Where a search found that a row goes in, for the calls that take the row next.

use crate::looking::guess::Guess;

/// Where a row goes in that no row of a store equals or dominates, as a search found it. Nothing is claimed of it: each
/// call that takes it looks whether it is right. Where neither the store nor the row is another, two rows tell that,
/// and nothing is searched for.
#[derive(Clone, Copy)]
pub struct Hint {
    pub(crate) guess: Guess,
}
