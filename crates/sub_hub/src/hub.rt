//! The hub.

ghost use Rattle.std.specs.Prelude.{◌≤◌};
ghost use Rattle.slab.specs.Slab.{slab_len};

use crate::member::Member;
use slab::Slab;
use willow_area::Area;

/// Those who watch a log, each for an area of its own; all of them for that of the hub too.
#[derive(Drop)]
pub struct Hub {
    pub(crate) members: Slab<Member>,
    pub(crate) front: u32,
    pub(crate) area: Area,
    pub(crate) added: u32,
    ghost few: { slab_len members ≤ added },
}
