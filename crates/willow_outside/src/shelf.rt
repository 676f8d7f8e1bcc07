//! What keeps bytes under names.

ghost use Rattle.std.specs.Prelude.{◌≡◌, IfOk};
ghost use Rattle.std.specs.Option.{option_map};
ghost use Rattle.willow_outside.specs.Counts.{CountsFault};
ghost use Rattle.willow_outside.specs.Facts.{ShelfFacts};
ghost use Rattle.willow_outside.specs.Names.{GetsName, NeedsMemoryIfHeld, PutsName};

use crate::Fault;

/// What keeps bytes under names, as a folder of files.
pub trait Shelf {
    ghost facts: { Self → ShelfFacts };

    /// The bytes under `name`, or None where there is no such name.
    /// `Failed` comes only where `read_faults` rose. A shelf that tells its names answers a missing one without memory.
    fn get(&mut self, name: &str) -> Result<Option<Vec<u8>>, Fault>
        ensures found { IfOk result (λ found. GetsName (facts self.old).names name.now (option_map (λ v. v.items) found)) }
        ensures memory { NeedsMemoryIfHeld (facts self.old).names name.now result }
        ensures names { (facts self.new).names ≡ (facts self.old).names }
        ensures cause { CountsFault (facts self.old).read_faults (facts self.new).read_faults result }
        ensures write_faults { (facts self.new).write_faults ≡ (facts self.old).write_faults };

    /// Puts `bytes` under `name` in place of what was there. After `Failed`, which comes only where
    /// `write_faults` rose, the name holds the old or the new bytes, and after `NoMemory` the old ones.
    fn put(&mut self, name: &str, bytes: &[u8]) -> Result<(), Fault>
        ensures names { PutsName (facts self.old).names (facts self.new).names name.now bytes.now result }
        ensures cause { CountsFault (facts self.old).write_faults (facts self.new).write_faults result }
        ensures read_faults { (facts self.new).read_faults ≡ (facts self.old).read_faults };
}
