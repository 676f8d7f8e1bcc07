//! What goes out of an object in memory and comes back.

ghost use Rattle.std.specs.Prelude.{◌≡◌, ◌+◌, ◌-◌, ◌^◌, ◌<◌, ◌≤◌, [], ◌∷◌, ◌++◌, OnOk, vec_len, vec_capacity};

use std::alloc::{AllocError, Global};

/// What came back, and how much is out. There is room for all of that.
#[derive(Drop)]
pub(crate) struct Returns<T> {
    pub(crate) back: Vec<T>,
    pub(crate) out: usize,
    ghost room: { vec_len back + out ≤ vec_capacity back },
}

impl<T: Drop> Returns<T> {
    pub(crate) fn new(alloc: Global) -> Returns<T>
        ensures back { result.back.items ≡ [] }
        ensures out { result.out ≡ 0 }
    {
        Returns {
            back: Vec::new(alloc),
            out: 0,
        }
    }

    /// Makes room for one more to come back.
    pub(crate) fn make_room(&mut self) -> Result<(), AllocError>
        ensures room { OnOk result (vec_len self.new.back + self.new.out + 1 ≤ vec_capacity self.new.back) }
        ensures fits { OnOk result (self.new.out + 1 < 2 ^ 64) }
        ensures back { self.new.back.items ≡ self.old.back.items }
        ensures out { self.new.out ≡ self.old.out }
    {
        match self.out.checked_add(1) {
            Some(more) => self.back.reserve(more),
            None => Err(AllocError),
        }
    }

    /// One more is out. There is room for it to come back.
    pub(crate) fn go_out(&mut self)
        requires room { vec_len self.old.back + self.old.out + 1 ≤ vec_capacity self.old.back }
        requires fits { self.old.out + 1 < 2 ^ 64 }
        ensures out { self.new.out ≡ self.old.out + 1 }
        ensures back { self.new.back.items ≡ self.old.back.items }
    {
        self.out += 1;
    }

    /// One comes back.
    pub(crate) fn take_back(&mut self, it: T)
        requires { 1 ≤ self.old.out }
        ensures back { self.new.back.items ≡ self.old.back.items ++ it ∷ [] }
        ensures out { self.new.out ≡ self.old.out - 1 }
    {
        self.out -= 1;
        match self.back.push(it) {
            Ok(()) => (),
            Err(_) => unreachable!(),
        }
    }
}
