//! Why a call of the outside did not do its work.

ghost use Rattle.std.specs.Prelude.{◌≡◌};
ghost use Rattle.willow_outside.specs.declared.fault.Fault.TheVariants as faults;

use std::alloc::{AllocError, AllocFailed};

/// A call failed, which raises its object's count of faults, or found no memory.
#[derive(Clone, Copy, Debug, PartialEq, Eq)]
pub enum Fault {
    /// The call failed; the object's count of faults rose.
    Failed,
    /// No memory was found.
    NoMemory,
}

impl From<AllocError> for Fault {
    ghost from_gives = { λ _ e. e ≡ faults.NoMemory };

    fn from(_e: AllocError) -> Fault {
        Fault::NoMemory
    }
}

impl<T: Drop> From<AllocFailed<T>> for Fault {
    ghost from_gives = { λ _ e. e ≡ faults.NoMemory };

    fn from(_e: AllocFailed<T>) -> Fault {
        Fault::NoMemory
    }
}
