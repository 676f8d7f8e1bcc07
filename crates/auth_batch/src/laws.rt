//! The number that a limit has. The function does nothing: it is called, if at all, for its clause.

ghost use Rattle.std.specs.Prelude.{◌≡◌};

use crate::checker::REMEMBERED;

/// So many valid capabilities are remembered where nobody says how many.
pub fn limit()
    ensures { REMEMBERED ≡ 1024 }
{}
