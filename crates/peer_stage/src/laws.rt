//! What is proved of the limits.

ghost use Rattle.std.specs.Prelude.{◌≡◌};

use crate::stage::INPUT_LIMIT;

/// A law, and no code: how many bytes a command takes from the input at most.
pub fn input_limit()
    ensures { INPUT_LIMIT ≡ 4294967295 }
{}
