//! What bytes are read from.

ghost use Rattle.std.specs.Io.{ReadsAtMost};
ghost use Rattle.std.specs.Io.KnownBytes.{ReadConsumes};
ghost use Rattle.willow_outside.specs.Counts.{CountsFault, EndHasCause};
ghost use Rattle.willow_outside.specs.Facts.{SourceFacts};

use crate::Fault;

/// What bytes are read from: a file, a terminal, or bytes in memory.
pub trait Source {
    ghost facts: { Self → SourceFacts };

    /// Puts the next bytes at the front of `buf` and answers their number, at most `buf.len()`.
    /// With a non-empty `buf` an answer of 0 is the end. `Failed` comes only where `faults` rose.
    fn read(&mut self, buf: &mut [u8]) -> Result<usize, Fault>
        ensures bound { ReadsAtMost result buf.new }
        ensures bytes { ReadConsumes (facts self.old).left (facts self.new).left result buf.new }
        ensures cause { CountsFault (facts self.old).faults (facts self.new).faults result }
        ensures end { EndHasCause (facts self.old).ends (facts self.new).ends result buf.new };
}
