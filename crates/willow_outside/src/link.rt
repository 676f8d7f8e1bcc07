//! What bytes go over in both directions.

ghost use Rattle.std.specs.Prelude.{◌≡◌, ◌≤◌, ℕ, IfOk};
ghost use Rattle.std.specs.Io.{ReadsAtMost, WritesAtMost};
ghost use Rattle.std.specs.Io.KnownBytes.{ReadConsumes};
ghost use Rattle.willow_outside.specs.Counts.{CountsFault, EndHasCause, TakesSome};
ghost use Rattle.willow_outside.specs.Facts.{LinkFacts};
ghost use Rattle.willow_outside.specs.Told.{ExtendsBy};

use crate::Fault;

/// What bytes go over in both directions: a socket, or bytes in memory. A link that tells what it gave or what it took
/// tells it always.
pub trait Link: Drop {
    ghost facts: { Self → LinkFacts };

    /// The greatest number of bytes that one read gives. It stays as it is.
    ghost most: { Self → ℕ };

    /// Puts the next bytes at the front of `buf` and answers their number, at most `buf.len()` and the link's `most`.
    /// With a non-empty `buf` an answer of 0 is the end. `Failed` comes only where `read_faults` rose.
    fn read(&mut self, buf: &mut [u8]) -> Result<usize, Fault>
        ensures bound { ReadsAtMost result buf.new }
        ensures at_most { IfOk result (λ n. n ≤ most self.old) }
        ensures bytes { ReadConsumes (facts self.old).left (facts self.new).left result buf.new }
        ensures taken { ExtendsBy (facts self.old).taken (facts self.new).taken result buf.new }
        ensures cause { CountsFault (facts self.old).read_faults (facts self.new).read_faults result }
        ensures end { EndHasCause (facts self.old).ends (facts self.new).ends result buf.new }
        ensures held { (facts self.new).held ≡ (facts self.old).held }
        ensures write_faults { (facts self.new).write_faults ≡ (facts self.old).write_faults }
        ensures same_most { most self.new ≡ most self.old };

    /// Takes bytes from the front of `piece` and answers their number, at least 1 of a non-empty `piece`.
    /// `Failed` comes only where `write_faults` rose; nothing is taken then, nor at want of memory.
    fn write(&mut self, piece: &[u8]) -> Result<usize, Fault>
        ensures bound { WritesAtMost result piece.now }
        ensures moves { TakesSome result piece.now }
        ensures bytes { ExtendsBy (facts self.old).held (facts self.new).held result piece.now }
        ensures cause { CountsFault (facts self.old).write_faults (facts self.new).write_faults result }
        ensures left { (facts self.new).left ≡ (facts self.old).left }
        ensures taken { (facts self.new).taken ≡ (facts self.old).taken }
        ensures read_faults { (facts self.new).read_faults ≡ (facts self.old).read_faults }
        ensures ends { (facts self.new).ends ≡ (facts self.old).ends }
        ensures same_most { most self.new ≡ most self.old };
}
