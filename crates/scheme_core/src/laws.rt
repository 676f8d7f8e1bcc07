//! The limits of signatures, each told by its number. These functions do nothing.

ghost use Rattle.std.specs.Prelude.{◌≡◌};

use crate::signer::MAX_SIGNATURE;

/// A signature has at most 1,508 bytes.
pub fn limits()
    ensures signature { MAX_SIGNATURE ≡ 1508 }
{}
