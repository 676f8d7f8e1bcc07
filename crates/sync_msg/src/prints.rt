//! The fingerprints of the parts of a box.

ghost use Rattle.std.specs.Prelude.{◌≡◌, ◌≤◌, [], ◌∷◌, ◌++◌, length, slice_get, Some, OnOk, OnErr, MatchOption};

use std::alloc::Global;
use std::marker::Model;
use willow_path::NoMemory;

/// A list of fingerprints. A contract sees the list.
#[derive(Drop)]
pub struct Prints {
    prints: Vec<[u8; 32]>,
}

impl Model for Prints {
    ghost use Rattle.std.specs.Prelude.{List, ℕ};

    ghost Value = { List (List ℕ) };

    ghost view = { λ p. p.prints.items };
}

impl Prints {
    /// No fingerprint.
    pub fn new(alloc: Global) -> Prints
        ensures { result ≡ [] }
    {
        Prints {
            prints: Vec::new(alloc),
        }
    }

    /// Adds a fingerprint. Without memory the list stays as it was.
    pub fn push(&mut self, print: [u8; 32]) -> Result<(), NoMemory>
        ensures added { OnOk result (self.new ≡ self.old ++ print ∷ []) }
        ensures kept { OnErr result (self.new ≡ self.old) }
    {
        self.prints.push(print)?;
        Ok(())
    }

    /// The number of fingerprints.
    pub fn len(&self) -> usize
        ensures { result ≡ length self.now }
    {
        self.prints.len()
    }

    /// The fingerprint at this place, counted from 0; None exactly from the length on.
    pub fn get(&self, i: usize) -> Option<&[u8; 32]>
        ensures { MatchOption result (length self.now ≤ i) (λ print. slice_get self.now i ≡ Some print.now) }
    {
        self.prints.get(i)
    }
}
