//! Bytes that are read from the front, field by field.

ghost use Rattle.std.specs.Prelude.{◌≡◌, List, ℕ, ◌-◌, length, slice_index, IsErrOf, if◌then◌else◌};
ghost use Rattle.std.specs.Int.{w16, w32, w64};
ghost use Rattle.spelling.specs.Memory.{IsWhole};
ghost use Rattle.spelling.specs.Reading.{Gives, IsEndOf, NeedsNoMemory, byte_at, byte_up_to, bytes_at, exactly_at, number_at, number_up_to};
ghost use Rattle.spelling.specs.declared.ending.End.TheVariants as ends;
ghost use Rattle.spelling.specs.declared.input.Unread.TheVariants as unread;

use crate::ending::{End, NoMemory, NotHere};
use std::alloc::{AllocError, AllocFailed, Global};
use std::marker::Model;

/// Why no value was read.
#[derive(Clone, Copy, Debug, PartialEq, Eq)]
pub enum Unread {
    /// The bytes end inside the value.
    Part,
    /// No spelling begins with the bytes.
    Wrong,
    /// No memory was found for the value.
    NoMemory,
}

/// The bytes that are left to read. After an error it is of no more use.
#[derive(Drop)]
pub struct Input<'a> {
    bytes: &'a [u8],
}

impl<'a> Model for Input<'a> {
    ghost use Rattle.std.specs.Prelude.{List, ℕ};

    ghost Value = { List ℕ };

    ghost view = { λ s. s.bytes.now };
}

impl<'a> Input<'a> {
    /// All of the bytes are left.
    pub fn new(bytes: &'a [u8]) -> Input<'a>
        ensures { result ≡ bytes.now }
    {
        Input { bytes }
    }

    /// The number of bytes that are left.
    pub fn len(&self) -> usize
        ensures { result ≡ length self.now }
    {
        self.bytes.len()
    }

    /// The bytes that are left.
    pub fn front(&self) -> &'a [u8]
        ensures { result.now ≡ self.now }
    {
        self.bytes
    }

    /// How many of the whole bytes are taken.
    pub fn taken_of(&self, whole: &[u8]) -> usize
        ensures { result ≡ length whole.now - length self.now }
    {
        whole.len().saturating_sub(self.bytes.len())
    }

    /// One byte.
    pub fn byte(&mut self) -> Result<u8, Unread>
        ensures gives { Gives (λ b. b) result self.new (byte_at self.old) }
        ensures sure { NeedsNoMemory result }
    {
        match self.bytes {
            [] => Err(Unread::Part),
            [byte, left @ ..] => {
                self.bytes = left;
                Ok(*byte)
            }
        }
    }

    /// One byte up to the limit; wrong where it is above.
    pub fn byte_up_to(&mut self, limit: u8) -> Result<u8, Unread>
        ensures gives { Gives (λ b. b) result self.new (byte_up_to limit self.old) }
        ensures sure { NeedsNoMemory result }
    {
        match self.bytes {
            [] => Err(Unread::Part),
            [byte, left @ ..] => {
                guard(*byte <= limit)?;
                self.bytes = left;
                Ok(*byte)
            }
        }
    }

    /// So many bytes, borrowed.
    pub fn slice(&mut self, n: usize) -> Result<&'a [u8], Unread>
        ensures gives { Gives (λ x. x.now) result self.new (bytes_at n self.old) }
        ensures sure { NeedsNoMemory result }
    {
        if self.bytes.len() < n {
            return Err(Unread::Part);
        }
        let (front, left) = self.bytes.split_at(n);
        self.bytes = left;
        Ok(front)
    }

    /// N bytes.
    pub fn array<const N: usize>(&mut self) -> Result<[u8; N], Unread>
        ensures gives { Gives (λ x. x) result self.new (bytes_at N self.old) }
        ensures sure { NeedsNoMemory result }
    {
        let front = self.slice(N)?;
        let mut array = [0; N];
        array.copy_from_slice(front);
        Ok(array)
    }

    /// So many bytes, in a vector. Memory is asked for where they are there.
    pub fn vec(&mut self, alloc: Global, n: usize) -> Result<Vec<u8>, Unread>
        ensures gives { Gives (λ v. v.items) result self.new (bytes_at n self.old) }
        ensures asked { IsErrOf result unread.NoMemory → IsWhole (bytes_at n self.old) }
    {
        let front = self.slice(n)?;
        Ok(Vec::from_slice(alloc, front)?)
    }

    /// Just these few bytes, as a format's first; wrong at the first that differs.
    #[tactic(auto, unfolding(crate::specs::Reading::exactly_at))]
    pub fn exactly(&mut self, due: &[u8]) -> Result<(), Unread>
        ensures gives { Gives (λ x. x) result self.new (exactly_at due.now self.old) }
        ensures sure { NeedsNoMemory result }
    {
        match due {
            [] => Ok(()),
            [first, others @ ..] => {
                let byte = self.byte()?;
                guard(byte == *first)?;
                self.exactly(others)
            }
        }
    }

    /// A number of two bytes, the highest first.
    pub fn number_u16(&mut self) -> Result<u16, Unread>
        ensures gives { Gives (λ n. n) result self.new (number_at w16 self.old) }
        ensures sure { NeedsNoMemory result }
    {
        Ok(u16::from_be_bytes(self.array()?))
    }

    /// A number of two bytes up to the limit, the highest first; wrong as soon as no such number begins with the
    /// bytes.
    pub fn number_u16_up_to(&mut self, limit: u16) -> Result<u16, Unread>
        ensures gives { Gives (λ n. n) result self.new (number_up_to w16 limit self.old) }
        ensures sure { NeedsNoMemory result }
    {
        guard(u16::from_be_bytes([self.byte_or_zero(0), self.byte_or_zero(1)]) <= limit)?;
        self.number_u16()
    }

    /// A number of four bytes, the highest first.
    pub fn number_u32(&mut self) -> Result<u32, Unread>
        ensures gives { Gives (λ n. n) result self.new (number_at w32 self.old) }
        ensures sure { NeedsNoMemory result }
    {
        Ok(u32::from_be_bytes(self.array()?))
    }

    /// A number of four bytes up to the limit, the highest first; wrong as soon as no such number begins with the
    /// bytes.
    pub fn number_u32_up_to(&mut self, limit: u32) -> Result<u32, Unread>
        ensures gives { Gives (λ n. n) result self.new (number_up_to w32 limit self.old) }
        ensures sure { NeedsNoMemory result }
    {
        let least = u32::from_be_bytes([
            self.byte_or_zero(0),
            self.byte_or_zero(1),
            self.byte_or_zero(2),
            self.byte_or_zero(3),
        ]);
        guard(least <= limit)?;
        self.number_u32()
    }

    /// A number of eight bytes, the highest first.
    pub fn number_u64(&mut self) -> Result<u64, Unread>
        ensures gives { Gives (λ n. n) result self.new (number_at w64 self.old) }
        ensures sure { NeedsNoMemory result }
    {
        Ok(u64::from_be_bytes(self.array()?))
    }

    // The byte at a place, or zero behind the end.
    fn byte_or_zero(&self, at: usize) -> u8
        ensures { result ≡ slice_index self.now at }
    {
        match self.bytes.get(at) {
            Some(byte) => *byte,
            None => 0,
        }
    }
}

/// Wrong, where the test fails.
pub fn guard(test: bool) -> Result<(), Unread>
    ensures { result ≡ (if test then Ok tt else Err unread.Wrong) }
{
    if test { Ok(()) } else { Err(Unread::Wrong) }
}

impl From<AllocError> for Unread {
    ghost from_gives = { λ _ e. e ≡ unread.NoMemory };

    fn from(_e: AllocError) -> Unread {
        Unread::NoMemory
    }
}

impl<T: Drop> From<AllocFailed<T>> for Unread {
    ghost from_gives = { λ _ e. e ≡ unread.NoMemory };

    fn from(_e: AllocFailed<T>) -> Unread {
        Unread::NoMemory
    }
}

impl From<NoMemory> for Unread {
    ghost from_gives = { λ _ e. e ≡ unread.NoMemory };

    fn from(_e: NoMemory) -> Unread {
        Unread::NoMemory
    }
}

impl From<Unread> for End<NotHere> {
    ghost from_gives = { IsEndOf };

    fn from(e: Unread) -> End<NotHere> {
        match e {
            Unread::Part | Unread::Wrong => End::Refused(NotHere),
            Unread::NoMemory => End::NoMemory,
        }
    }
}
