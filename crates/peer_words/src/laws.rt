//! What the definitions mean. These functions do nothing: each is called, if at all, for its clauses.

ghost use Rattle.std.specs.Prelude.{◌≡◌, ℕ, List};
ghost use Rattle.peer_words.specs.Alike.{AreAlike};
ghost use Rattle.peer_words.specs.Commands.{IsWords};
ghost use Rattle.peer_words.specs.declared.command.Command.{Command};

use crate::limits::{MOST_LINKS, MOST_NAME_BYTES, MOST_PLACE_BYTES, MOST_PORT, MOST_ROWS};

/// Words spell at most one command: two that the same words spell are the same, with the same fields.
pub fn one_command()
    ensures { (words : List (List ℕ)) (one other : Command) → IsWords words one → IsWords words other → AreAlike one other }
{}

/// The limits of values: 65,536 rows, 64 links, names of 128 bytes, places of 255 bytes, the port 65,535.
pub fn limits()
    ensures rows { MOST_ROWS ≡ 65536 }
    ensures links { MOST_LINKS ≡ 64 }
    ensures name { MOST_NAME_BYTES ≡ 128 }
    ensures place { MOST_PLACE_BYTES ≡ 255 }
    ensures port { MOST_PORT ≡ 65535 }
{}
