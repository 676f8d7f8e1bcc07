//! What bytes are written to.

ghost use Rattle.std.specs.Io.{WritesAtMost};
ghost use Rattle.std.specs.Io.KnownBytes.{WriteAppends};
ghost use Rattle.willow_outside.specs.Counts.{CountsFault, TakesSome};
ghost use Rattle.willow_outside.specs.Facts.{SinkFacts};

use crate::Fault;

/// What bytes are written to: a file, a terminal, or bytes in memory.
pub trait Sink {
    ghost facts: { Self → SinkFacts };

    /// Takes bytes from the front of `piece` and answers their number, at least 1 of a non-empty `piece`.
    /// `Failed` comes only where `faults` rose; nothing is taken then, nor at want of memory.
    fn write(&mut self, piece: &[u8]) -> Result<usize, Fault>
        ensures bound { WritesAtMost result piece.now }
        ensures moves { TakesSome result piece.now }
        ensures bytes { WriteAppends (facts self.old).held (facts self.new).held result piece.now }
        ensures cause { CountsFault (facts self.old).faults (facts self.new).faults result };
}
