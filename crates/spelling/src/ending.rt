//! How a call ends where it does not end well.

ghost use Rattle.std.specs.Prelude.{◌≡◌};
ghost use Rattle.spelling.specs.declared.ending.End.TheVariants as ends;

use std::alloc::{AllocError, AllocFailed};

/// No memory was found.
#[derive(Clone, Copy, Debug, PartialEq, Eq)]
pub struct NoMemory;

/// No front of the bytes is a spelling in the grammar asked for.
#[derive(Clone, Copy, Debug, PartialEq, Eq)]
pub struct NotHere;

/// A refusal with its cause, or want of memory.
#[derive(Debug, PartialEq, Eq, Drop)]
pub enum End<E> {
    Refused(E),
    NoMemory,
}

impl From<AllocError> for NoMemory {
    fn from(_e: AllocError) -> NoMemory {
        NoMemory
    }
}

impl<T: Drop> From<AllocFailed<T>> for NoMemory {
    fn from(_e: AllocFailed<T>) -> NoMemory {
        NoMemory
    }
}

impl<E> From<AllocError> for End<E> {
    ghost from_gives = { λ _ e. e ≡ ends.NoMemory };

    fn from(_e: AllocError) -> End<E> {
        End::NoMemory
    }
}

impl<T: Drop, E> From<AllocFailed<T>> for End<E> {
    ghost from_gives = { λ _ e. e ≡ ends.NoMemory };

    fn from(_e: AllocFailed<T>) -> End<E> {
        End::NoMemory
    }
}

impl<E> From<NoMemory> for End<E> {
    ghost from_gives = { λ _ e. e ≡ ends.NoMemory };

    fn from(_e: NoMemory) -> End<E> {
        End::NoMemory
    }
}
