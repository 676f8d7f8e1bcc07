//! Noise from the machine.

ghost use Rattle.std.specs.Prelude.{◌≡◌, None, length};
ghost use Rattle.willow_outside.specs.Draws.{IsDraw};

use crate::faults::counted;
use std::random::RandomSource;
use willow_outside::{Fault, Noise};

/// Draws from the machine's source of random bytes, with a count of the faults. The draws to come are not told.
#[derive(Drop)]
pub struct RandomNoise<R> {
    machine: R,
    faults: u64,
}

impl<R: RandomSource + Drop> RandomNoise<R> {
    /// Draws from `machine`, with the count 0.
    pub fn new(machine: R) -> RandomNoise<R>
        ensures { ⟦<RandomNoise<R> as Noise>⟧.facts result ≡ record { draws = None; faults = 0 } }
    {
        RandomNoise { machine, faults: 0 }
    }
}

// The draw of these 32 bytes.
fn drawn(words: &[u8]) -> [u8; 32]
    requires { length words.now ≡ 32 }
    ensures value { result ≡ words.now }
    ensures size { IsDraw result }
{
    let mut draw = [0; 32];
    draw.copy_from_slice(words);
    draw
}

impl<R: RandomSource + Drop> Noise for RandomNoise<R> {
    ghost facts = { λ s. record { draws = None; faults = s.faults } };

    fn words(&mut self) -> Result<[u8; 32], Fault> {
        let mut words = [0; 32];
        match self.machine.fill_bytes(&mut words) {
            Ok(()) => Ok(drawn(&words)),
            Err(error) => { Err(counted(&mut self.faults, &error)) }
        }
    }
}
