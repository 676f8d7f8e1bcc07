//! What the numbers are. This function does nothing: it is there for its clause.

ghost use Rattle.std.specs.Prelude.{◌≡◌};

use crate::generator::GENERATED_ROWS;

/// The generator has 65,536 rows.
pub fn limits()
    ensures { GENERATED_ROWS ≡ 65536 }
{}
