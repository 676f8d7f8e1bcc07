//! A link between two threads.

ghost use Rattle.std.specs.Prelude.{◌≡◌, ◌+◌, ◌-◌, ◌^◌, ◌≤◌, ◌++◌, None, Some, [], IfOk, length, vec_len, vec_capacity};
ghost use Rattle.paired_links.specs.Pairs.{new_end};

use crate::channel::Channel;
use spelling::NoMemory;
use std::alloc::Global;
use std::sync::{Arc, Wait};
use willow_outside::{Fault, Link};

/// One end of a link between two threads: it reads what the other end wrote, and waits for it. Where the other end is
/// dropped, a read gives what is left and then the end, and what is written is read by nobody.
pub struct PairLink<W: Wait + Drop> {
    rt: W,
    from: Arc<Channel>,
    to: Arc<Channel>,
    taken: Vec<u8>,
    held: Vec<u8>,
    ends: u64,
}

/// The two ends of a new link, each with a copy of `rt`.
pub fn pair<W: Wait + Clone + Drop + Send + Sync>(
    rt: &W,
    alloc: Global,
) -> Result<(PairLink<W>, PairLink<W>), NoMemory>
    ensures { IfOk result (λ r. (⟦<PairLink<W> as Link>⟧.facts r.0 ≡ new_end) × (⟦<PairLink<W> as Link>⟧.facts r.1 ≡ new_end)) }
{
    let one = Arc::new(alloc, Channel::new(alloc))?;
    let other = Arc::new(alloc, Channel::new(alloc))?;
    let near = PairLink::between(rt.clone()?, alloc, one.clone()?, other.clone()?);
    let far = PairLink::between(rt.clone()?, alloc, other, one);
    Ok((near, far))
}

impl<W: Wait + Drop> Drop for PairLink<W> {
    fn drop(self) {
        let PairLink {
            rt,
            from: _,
            to,
            taken: _,
            held: _,
            ends: _,
        } = self;
        to.close(&rt);
    }
}

// Appends bytes for which there is room.
fn append(list: &mut Vec<u8>, bytes: &[u8])
    requires { vec_len list.old + length bytes.now ≤ vec_capacity list.old }
    ensures { list.new.items ≡ list.old.items ++ bytes.now }
{
    match list.extend_from_slice(bytes) {
        Ok(()) => (),
        Err(_) => unreachable!(),
    }
}

impl<W: Wait + Drop + Send> PairLink<W> {
    fn between(rt: W, alloc: Global, from: Arc<Channel>, to: Arc<Channel>) -> PairLink<W>
        ensures { ⟦<PairLink<W> as Link>⟧.facts result ≡ new_end }
    {
        PairLink {
            rt,
            from,
            to,
            taken: Vec::new(alloc),
            held: Vec::new(alloc),
            ends: 0,
        }
    }

    /// All bytes that the end's reads gave.
    pub fn taken(&self) -> &[u8]
        ensures { (⟦<PairLink<W> as Link>⟧.facts self.now).taken ≡ Some result.now }
    {
        &self.taken
    }

    /// All bytes that the end's writes took.
    pub fn held(&self) -> &[u8]
        ensures { (⟦<PairLink<W> as Link>⟧.facts self.now).held ≡ Some result.now }
    {
        &self.held
    }
}

impl<W: Wait + Drop + Send> Link for PairLink<W> {
    ghost facts = { λ s. record { left = None; taken = Some s.taken.items; held = Some s.held.items; read_faults = 0; write_faults = 0; ends = s.ends } };

    ghost most = { λ _. 2 ^ 64 - 1 };

    /// Waits until the other end has written or is dropped.
    fn read(&mut self, buf: &mut [u8]) -> Result<usize, Fault> {
        if buf.is_empty() {
            return Ok(0);
        }
        self.taken.reserve(buf.len())?;
        let count = self.from.take(&self.rt, buf);
        append(&mut self.taken, &buf[..count]);
        if count == 0 {
            self.ends = self.ends.saturating_add(1);
        }
        Ok(count)
    }

    /// Takes all of `piece`.
    fn write(&mut self, piece: &[u8]) -> Result<usize, Fault> {
        self.held.reserve(piece.len())?;
        self.to.put(&self.rt, piece)?;
        append(&mut self.held, piece);
        Ok(piece.len())
    }
}
