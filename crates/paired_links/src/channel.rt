//! One direction of a link between two threads.

ghost use Rattle.std.specs.Prelude.{◌≤◌, length};
ghost use Rattle.std.specs.Sync.Mutex.{mutex_guard_value};
ghost use Rattle.paired_links.specs.Pipes.{IsDue};

use crate::pipe::Pipe;
use std::alloc::{AllocError, Global};
use std::sync::{Condvar, Mutex, MutexGuard, Wait};

/// A pipe into which one thread writes, and at which another waits.
#[derive(Drop)]
pub(crate) struct Channel {
    pipe: Mutex<Pipe>,
    came: Condvar,
}

impl Channel {
    pub(crate) fn new(alloc: Global) -> Channel {
        Channel {
            pipe: Mutex::new(Pipe::new(alloc)),
            came: Condvar::new(),
        }
    }

    pub(crate) fn put<W: Wait>(&self, rt: &W, piece: &[u8]) -> Result<(), AllocError> {
        self.pipe.lock(rt).put(piece)?;
        self.came.notify_one();
        Ok(())
    }

    pub(crate) fn close<W: Wait>(&self, rt: &W) {
        self.pipe.lock(rt).close();
        self.came.notify_one();
    }

    // Waits until a read need not wait any longer.
    fn wait<W: Wait>(&self, rt: &W) -> MutexGuard<'_, Pipe>
        ensures { IsDue (mutex_guard_value result) }
    {
        self.came
            .wait_while(rt, self.pipe.lock(rt), |pipe| !pipe.is_due())
    }

    /// Waits for bytes and puts the first of them at the front of `buf`. Their number is 0 only where the end that writes
    /// is gone and no bytes are left, or where there is no room.
    pub(crate) fn take<W: Wait>(&self, rt: &W, buf: &mut [u8]) -> usize
        ensures { result ≤ length buf.new }
    {
        self.wait(rt).give(buf)
    }
}
