//! The bytes of one direction between two threads.

ghost use Rattle.std.specs.Prelude.{◌≡◌, ◌<◌, ◌≤◌, ◌↔◌, ◌++◌, [], length, take, OnOk, OnErr, true, false};
ghost use Rattle.paired_links.specs.Pipes.{IsDue};

use std::alloc::{AllocError, Global};
use std::collections::VecDeque;
use std::io::{Read, Write};
use std::marker::Model;

/// The bytes that one end wrote and the other did not read yet, and whether the end that writes is gone.
#[derive(Drop)]
pub(crate) struct Pipe {
    waiting: VecDeque<u8>,
    closed: bool,
}

impl Model for Pipe {
    ghost use Rattle.paired_links.specs.Pipes.{PipeValue};

    ghost Value = { PipeValue };

    ghost view = { λ s. record { waiting = s.waiting.items; closed = s.closed } };
}

impl Pipe {
    pub(crate) fn new(alloc: Global) -> Pipe
        ensures { result ≡ record { waiting = []; closed = false } }
    {
        Pipe {
            waiting: VecDeque::new(alloc),
            closed: false,
        }
    }

    /// Whether a read need not wait: bytes are there, or none will come.
    pub(crate) fn is_due(&self) -> bool
        ensures { (result ≡ true) ↔ IsDue self.now }
    {
        self.closed || !self.waiting.is_empty()
    }

    /// Takes the piece behind all others, or nothing of it.
    pub(crate) fn put(&mut self, piece: &[u8]) -> Result<(), AllocError>
        ensures ok { OnOk result (self.new.waiting ≡ self.old.waiting ++ piece.now) }
        ensures err { OnErr result (self.new.waiting ≡ self.old.waiting) }
        ensures closed { self.new.closed ≡ self.old.closed }
    {
        match self.waiting.write(piece) {
            Ok(_) => Ok(()),
            Err(_) => Err(AllocError),
        }
    }

    /// Puts the first bytes at the front of `buf`, takes them off and answers their number. A number of 0 is the end,
    /// unless there is no room.
    pub(crate) fn give(&mut self, buf: &mut [u8]) -> usize
        requires { IsDue self.old }
        ensures bound { result ≤ length buf.new }
        ensures bytes { self.old.waiting ≡ take result buf.new ++ self.new.waiting }
        ensures closed { self.new.closed ≡ self.old.closed }
        ensures all { result ≡ 0 → 0 < length buf.new → self.old.waiting ≡ [] }
        ensures end { result ≡ 0 → 0 < length buf.new → self.old.closed ≡ true }
    {
        match self.waiting.read(buf) {
            Ok(count) => count,
            Err(_) => unreachable!(),
        }
    }

    /// The end that writes is gone.
    pub(crate) fn close(&mut self)
        ensures { self.new ≡ record { waiting = self.old.waiting; closed = true } }
    {
        self.closed = true;
    }
}
