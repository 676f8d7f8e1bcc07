//! A server over two links in memory with one gate. The first link gives nothing before all is written to the second one: so
//! the second session must run while the first one waits, and that one may hold no turn of the log meanwhile. Both bring a row
//! that is new.

ghost use Rattle.std.specs.Prelude.{IfOk};
ghost use Rattle.willow_outside.specs.Links.{IsFresh};

use crate::given::Given;
use crate::run::{Side, measure, over, serve_words};
use paired_links::GateLink;
use std::alloc::{AllocError, Global};
use std::sync::atomic::AtomicU64;
use std::sync::{Arc, Wait};
use std::thread::Threads;
use willow_outside::{Link, MemDoor, MemLink};

// The most bytes a call.
const PIECE: usize = 100;

// How often a read looks whether the gate is open, and lets other threads run, before it fails.
const TURNS: u64 = 1_000_000_000;

// A link that gives the bytes of a name, behind the gate.
fn link_of(
    alloc: Global,
    given: &Given,
    name: &str,
    gate: &Arc<AtomicU64>,
    opens_at: u64,
) -> Result<GateLink, AllocError>
    ensures { IfOk result (λ link. IsFresh (⟦<GateLink as Link>⟧.facts link)) }
{
    let bytes = Vec::from_slice(alloc, given.bytes(name))?;
    let link = MemLink::new(alloc, bytes, Vec::new(alloc), PIECE);
    Ok(GateLink::new(link, gate.clone()?, opens_at, TURNS))
}

/// Runs the server, and tells what came and what each link holds.
pub(crate) fn gate_lines<R: Wait + Threads + Sync>(
    rt: &R,
    alloc: Global,
    given: &Given,
) -> Result<String, AllocError> {
    let gate = Arc::new(alloc, AtomicU64::new(0))?;
    let opens_at = given.bytes("late-answers").len() as u64;
    let first = link_of(alloc, given, "early-peer", &gate, 0)?;
    let second = link_of(alloc, given, "late-peer", &gate, opens_at)?;
    let mut door = MemDoor::new(alloc, vec![in alloc; first, second]?, vec![in alloc]?);
    let server = Side {
        given,
        image: "forty",
        draws: "server-draws",
    };
    let served = over(rt, alloc, &serve_words("here:1", "2"), server, &mut door)?;
    let mut lines = served.lines_without_fronts(alloc, "over two links of one gate")?;
    let mut number = 0u64;
    for link in door.back() {
        number = number.saturating_add(1);
        let held = measure(alloc, link.held())?;
        write!(lines, "link {number} holds {held}\n")?;
    }
    Ok(lines)
}
