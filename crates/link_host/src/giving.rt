//! Links that are given back.

ghost use Rattle.std.specs.Prelude.{◌≤◌, map, vec_len};
ghost use Rattle.link_host.specs.Begun.{AreGivenBack};

use willow_outside::{Door, Link};

/// Gives the links back to the door, in order.
pub fn give_back_all<L: Link + Send, D: Door<L = L>>(door: &mut D, links: Vec<L>)
    requires { vec_len links ≤ (D.facts door.old).out }
    ensures { AreGivenBack (map L.facts links.items) (D.facts door.old) (D.facts door.new) }
{
    for link in links {
        door.give_back(link);
    }
}
