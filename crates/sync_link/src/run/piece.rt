//! One piece of what the other side sends, from the link to the log.

ghost use Rattle.std.specs.Prelude.{◌≡◌, ◌+◌, ◌<◌, ◌≤◌, length, OnOk};
ghost use Rattle.session_rules.specs.Reading.{ending_of, More};
ghost use Rattle.ns_cell.specs.Passes.{IsPassOf};
ghost use Rattle.willow_outside.specs.Facts.{LinkFacts};
ghost use Rattle.sync_link.specs.Asking.{IsAskedOnce};
ghost use Rattle.row_intake.specs.Links.{GaveBytes};
ghost use Rattle.sync_link.specs.UnderWay.{Start, IsBy, IsCounted, IsStill, IsUnderWay, GoesOnOrEnds, now_of};

use crate::run::judge::take_lists;
use crate::run::writing::write_all;
use crate::side::lists::Lists;
use crate::side::own_side::OwnSide;
use crate::side::standing::Stop;
use auth_entry::{AuthorisedEntry, Checker};
use ns_cell::{NsCell, Pass};
use row_intake::{Tally, known_raws};
use scheme_core::{Scheme, Signer};
use session_end::SessionEnd;
use std::alloc::Global;
use std::sync::Wait;
use std::thread::Threads;
use willow_outside::{Fault, Link};

// A session that is under way: its side, how many rows are due of a list that came in part, what became of the rows that
// came, and how many bytes it read.
#[derive(Drop)]
pub(crate) struct Session<S: Scheme> {
    pub(crate) side: OwnSide<AuthorisedEntry<S>, S>,
    pub(crate) due: u32,
    pub(crate) tally: Tally,
    pub(crate) count: u64,
}

// Reads a piece of the link, into room for some bytes, and takes it in.
pub(crate) fn hear_piece<R: Wait + Threads + Sync, S: Scheme, C: Checker<S>, K: Signer, L: Link>(
    rt: &R,
    alloc: Global,
    cell: &NsCell<AuthorisedEntry<S>>,
    pass: &mut Pass<AuthorisedEntry<S>>,
    checker: &mut C,
    signer: &mut K,
    link: &mut L,
    session: &mut Session<S>,
    room: &mut [u8],
) -> Result<(), SessionEnd>
    requires pass { IsPassOf cell.now pass.old }
    requires namespace { C.judged_in checker.old ≡ cell.now.namespace }
    requires counted { IsCounted session.old }
    requires room { 1 ≤ length room.old }
    requires open { ending_of session.old.side.stand ≡ More }
    ensures pass { IsPassOf cell.now pass.new }
    ensures namespace { C.judged_in checker.new ≡ C.judged_in checker.old }
    ensures most { L.most link.new ≡ L.most link.old }
    ensures asking { IsAskedOnce K.gives K.asks session.old.side.signature session.new.side.signature signer.old signer.new result }
    ensures counted { OnOk result (IsCounted session.new) }
    ensures grows { OnOk result (session.old.count < session.new.count) }
    ensures goes_on { (start : Start) → IsBy start S.rules cell.now.namespace (K.gives signer.old) (L.most link.old)
        → IsUnderWay start (now_of S.rules session.old pass.old (L.facts link.old) (K.left signer.old) (K.faults signer.old))
        → GoesOnOrEnds start (now_of S.rules session.new pass.new (L.facts link.new) (K.left signer.new) (K.faults signer.new))
        (IsStill session.old.side.signature signer.old signer.new) result }
{
    match link.read(room) {
        Ok(0) => Err(SessionEnd::ClosedEarly { at: session.count }),
        Ok(n) => take_piece(
            rt,
            alloc,
            cell,
            pass,
            checker,
            signer,
            link,
            session,
            &room[..n],
        ),
        Err(Fault::Failed) => Err(SessionEnd::LinkRead),
        Err(Fault::NoMemory) => Err(SessionEnd::NoMemory),
    }
}

// Takes in a piece that the link gave: its rows are offered to the log, and what is due to it is written.
fn take_piece<R: Wait + Threads + Sync, S: Scheme, C: Checker<S>, K: Signer, L: Link>(
    rt: &R,
    alloc: Global,
    cell: &NsCell<AuthorisedEntry<S>>,
    pass: &mut Pass<AuthorisedEntry<S>>,
    checker: &mut C,
    signer: &mut K,
    link: &mut L,
    session: &mut Session<S>,
    piece: &[u8],
) -> Result<(), SessionEnd>
    requires pass { IsPassOf cell.now pass.old }
    requires namespace { C.judged_in checker.old ≡ cell.now.namespace }
    requires counted { IsCounted session.old }
    requires piece { (1 ≤ length piece.now) × (length piece.now ≤ L.most link.old) }
    requires open { ending_of session.old.side.stand ≡ More }
    ensures pass { IsPassOf cell.now pass.new }
    ensures namespace { C.judged_in checker.new ≡ C.judged_in checker.old }
    ensures most { L.most link.new ≡ L.most link.old }
    ensures asking { IsAskedOnce K.gives K.asks session.old.side.signature session.new.side.signature signer.old signer.new result }
    ensures counted { OnOk result (IsCounted session.new) }
    ensures grows { OnOk result (session.new.count ≡ session.old.count + length piece.now) }
    ensures goes_on { (start : Start) (before : LinkFacts) → IsBy start S.rules cell.now.namespace (K.gives signer.old) (L.most link.old)
        → IsUnderWay start (now_of S.rules session.old pass.old before (K.left signer.old) (K.faults signer.old))
        → GaveBytes before (L.facts link.old) piece.now
        → GoesOnOrEnds start (now_of S.rules session.new pass.new (L.facts link.new) (K.left signer.new) (K.faults signer.new))
        (IsStill session.old.side.signature signer.old signer.new) result }
{
    let count = match session.count.checked_add(piece.len() as u64) {
        Some(count) => count,
        None => return Err(SessionEnd::NoMemory),
    };
    let mut out = Vec::new(alloc);
    let mut came = Lists::new(alloc);
    match came.announce(session.due) {
        Ok(()) => {}
        Err(_) => return Err(SessionEnd::NoMemory),
    }
    match session.side.take_in(signer, piece, &mut out, &mut came) {
        Ok(()) => {}
        Err(Stop::SignFault) => return Err(SessionEnd::SignFault),
        Err(Stop::NoMemory) => return Err(SessionEnd::NoMemory),
    }
    session.count = count;
    known_raws(&came.rows);
    session.side.known_signature();
    match take_lists(rt, alloc, cell, pass, checker, &mut session.tally, came) {
        Ok(due) => session.due = due,
        Err(_) => return Err(SessionEnd::NoMemory),
    }
    match write_all(link, &out) {
        Ok(()) => Ok(()),
        Err(end) => Err(end),
    }
}
