//! A door in memory whose accepts a test can count.

ghost use Rattle.std.specs.Prelude.{◌≡◌};

use willow_outside::{Door, Fault, MemDoor, MemLink};

/// A door in memory, which tells how many accepts it was asked for.
#[derive(Drop)]
pub(crate) struct CountedDoor {
    door: MemDoor<MemLink>,
    accepts: u32,
}

impl CountedDoor {
    pub(crate) fn new(door: MemDoor<MemLink>) -> CountedDoor {
        CountedDoor { door, accepts: 0 }
    }

    /// How many accepts were made, whatever they answered.
    pub(crate) fn accepts(&self) -> u32 {
        self.accepts
    }

    /// The links that came back.
    pub(crate) fn back(&self) -> &[MemLink] {
        self.door.back()
    }
}

impl Door for CountedDoor {
    type L = MemLink;

    ghost facts = { λ s. ⟦<MemDoor<MemLink> as Door>⟧.facts s.door };

    fn listen(&mut self, place: &str) -> Result<(), Fault> {
        self.door.listen(place)
    }

    fn accept(&mut self) -> Result<MemLink, Fault> {
        self.accepts = self.accepts.saturating_add(1);
        self.door.accept()
    }

    fn connect(&mut self, place: &str) -> Result<MemLink, Fault> {
        self.door.connect(place)
    }

    fn give_back(&mut self, link: MemLink) {
        self.door.give_back(link);
    }
}

/// Asks for three links and makes the other calls of a door between. The clause tells what the door's own count makes of it.
pub(crate) fn three_accepts(door: &mut MemDoor<MemLink>) -> [bool; 3]
    requires { door.old.accepts ≡ 0 }
    ensures { door.new.accepts ≡ 3 }
{
    let _ = door.listen("here");
    let first = door.accept();
    let second = door.accept();
    let _ = door.connect("there");
    let third = door.accept();
    [first.is_ok(), second.is_ok(), third.is_ok()]
}
