//! What draws of noise come from.

ghost use Rattle.std.specs.Prelude.{IfOk};
ghost use Rattle.willow_outside.specs.Counts.{CountsFault};
ghost use Rattle.willow_outside.specs.Draws.{IsDraw, Draws};
ghost use Rattle.willow_outside.specs.Facts.{NoiseFacts};

use crate::Fault;

/// What draws of noise come from: the machine, or draws in memory.
pub trait Noise {
    ghost facts: { Self → NoiseFacts };

    /// The next 32 bytes of noise. `Failed` comes only where `faults` rose.
    fn words(&mut self) -> Result<[u8; 32], Fault>
        ensures size { IfOk result IsDraw }
        ensures draws { Draws (facts self.old).draws (facts self.new).draws result }
        ensures cause { CountsFault (facts self.old).faults (facts self.new).faults result };
}
