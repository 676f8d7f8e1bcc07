//! Two sides that read what each other writes.

use crate::plans::Side;
use crate::rows::signer;
use crate::runs::{Ran, run_with};
use std::alloc::Global;
use std::sync::Wait;
use std::thread::Threads;
use sync_link::SessionEnd;
use sync_msg::Role;
use willow_outside::MemLink;

// What came of two sides that met.
#[derive(Drop)]
pub(crate) struct Met {
    // What was written in turn, each behind all that this side wrote before.
    pub(crate) turns: Vec<Vec<u8>>,
    pub(crate) caller: Ran,
    pub(crate) answerer: Ran,
}

// A side that was not run yet.
fn unrun(alloc: Global) -> Ran {
    Ran {
        answer: Err(SessionEnd::ClosedEarly { at: 0 }),
        written: Vec::new(alloc),
        times: Vec::new(alloc),
        calls: 0,
    }
}

// What comes of a side on all that the other has written, of which it reads at most so many bytes at a time.
fn ran_on<R: Wait + Threads + Sync>(
    rt: &R,
    alloc: Global,
    role: Role,
    which: Side,
    heard: &[u8],
    most: usize,
) -> Option<Ran> {
    let (signer, heard) = (signer()?, Vec::from_slice(alloc, heard).ok()?);
    let link = MemLink::new(alloc, heard, Vec::new(alloc), most.max(1));
    run_with(rt, alloc, role, which, signer, link)
}

// Adds what a side has written behind what it wrote before, where that is something.
fn add_turn(alloc: Global, ran: &Ran, before: &Ran, turns: &mut Vec<Vec<u8>>) -> Option<()> {
    let turn = ran.written.strip_prefix(before.written.as_slice())?;
    if turn.is_empty() {
        return Some(());
    }
    turns.push(Vec::from_slice(alloc, turn).ok()?).ok()
}

// Runs a side anew on all that the other has written. It writes again what it wrote before, and what it writes behind that
// is the next turn.
fn run_again<R: Wait + Threads + Sync>(
    rt: &R,
    alloc: Global,
    role: Role,
    which: Side,
    heard: &[u8],
    most: usize,
    side: &mut Ran,
    turns: &mut Vec<Vec<u8>>,
) -> Option<()> {
    let ran = ran_on(rt, alloc, role, which, heard, most)?;
    add_turn(alloc, &ran, side, turns)?;
    *side = ran;
    Some(())
}

// Runs the sides of a meeting in turn, six times each.
fn run_in_turn<R: Wait + Threads + Sync>(
    rt: &R,
    alloc: Global,
    caller: Side,
    answerer: Side,
    most: usize,
    met: &mut Met,
) -> Option<()> {
    for _ in 0..6 {
        run_again(
            rt,
            alloc,
            Role::Caller,
            caller,
            &met.answerer.written,
            most,
            &mut met.caller,
            &mut met.turns,
        )?;
        run_again(
            rt,
            alloc,
            Role::Answerer,
            answerer,
            &met.caller.written,
            most,
            &mut met.answerer,
            &mut met.turns,
        )?;
    }
    Some(())
}

// The meeting of two sides, which read at most so many bytes at a time.
pub(crate) fn meeting<R: Wait + Threads + Sync>(
    rt: &R,
    alloc: Global,
    caller: Side,
    answerer: Side,
    most: usize,
) -> Option<Met> {
    let mut met = Met {
        turns: Vec::new(alloc),
        caller: unrun(alloc),
        answerer: unrun(alloc),
    };
    run_in_turn(rt, alloc, caller, answerer, most, &mut met)?;
    Some(met)
}

// Whether the turns have so many bytes each.
pub(crate) fn have_lengths(turns: &[Vec<u8>], lengths: &[usize]) -> bool {
    turns.len() == lengths.len()
        && turns
            .iter()
            .zip(lengths)
            .all(|(turn, length)| turn.len() == *length)
}
