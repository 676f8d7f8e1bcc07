//! A source of two pieces, which says nothing of what it has.

ghost use Rattle.std.specs.Prelude.{None};

use std::alloc::Global;
use willow_outside::{Fault, Source, SureSource};

// Gives the first piece whole, where there is room, and then the second one.
#[derive(Drop)]
pub(crate) struct Halves {
    front: SureSource,
    back: SureSource,
}

impl Halves {
    // The bytes in two pieces, of which the first has so many.
    pub(crate) fn new(alloc: Global, bytes: &[u8], at: usize) -> Option<Halves> {
        let (front, back) = bytes.split_at_checked(at)?;
        Some(Halves {
            front: SureSource::new(alloc, Vec::from_slice(alloc, front).ok()?),
            back: SureSource::new(alloc, Vec::from_slice(alloc, back).ok()?),
        })
    }
}

impl Source for Halves {
    ghost facts = { λ h. record { left = None; faults = 0; ends = h.back.ends } };

    fn read(&mut self, buf: &mut [u8]) -> Result<usize, Fault> {
        match self.front.read(buf) {
            Ok(0) => self.back.read(buf),
            answer => answer,
        }
    }
}
