//! Where a search may begin: rows often stand right behind the last row of their subspace. Nothing is claimed of a
//! guess, since a search looks whether it is right.

ghost use Rattle.std.specs.Prelude.{◌<◌};
ghost use Rattle.block_store.specs.declared.looking.guess.TheConstants.{GUESSES};

use crate::looking::spot::Spot;
use willow_entry::Row;

// How many guesses a store keeps. Subspaces that share one spoil it for each other.
pub(crate) const GUESSES: usize = 32;

// How many fronts of a path a guess is kept for: most paths are short.
const FRONTS: usize = 3;

// Where the last row went in, or would have stood, and where the shortest fronts of its path stood that were looked for.
#[derive(Clone, Copy)]
pub(crate) struct Guess {
    pub(crate) own: Spot,
    fronts: [Spot; FRONTS],
}

impl Guess {
    // The guess before any row.
    pub(crate) fn at_begin() -> Guess {
        let spot = Spot { block: 0, row: 0 };
        Guess {
            own: spot,
            fronts: [spot; FRONTS],
        }
    }

    // Where the n-th front may stand, counted from 0.
    pub(crate) fn front(&self, n: usize) -> Spot {
        if n < FRONTS { self.fronts[n] } else { self.own }
    }

    // Notes where the n-th front stands.
    pub(crate) fn note_front(&mut self, n: usize, at: Spot) {
        if n < FRONTS {
            self.fronts[n] = at;
        }
    }
}

// Which guess is kept for the row's subspace.
pub(crate) fn slot_of<R: Row>(row: &R) -> usize
    ensures { result < GUESSES }
{
    row.entry().subspace.to_bytes()[32] as usize % GUESSES
}
