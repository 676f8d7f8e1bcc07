//! The session of a store with the one at the other end of a link.

ghost use Rattle.std.specs.Prelude.{◌≡◌, ◌⊎◌, ℕ, ◌≤◌, ◌<◌, ◌^◌, length, None, OnOk, IfErr, IsTrue, false};
ghost use Rattle.willow_outside.specs.Facts.{LinkFacts};
ghost use Rattle.auth_entry.specs.Authorised.{AuthorisedValue};
ghost use Rattle.ns_cell.specs.Passes.{PassValue, IsPassOf};
ghost use Rattle.session_rules.specs.Reading.{Done, More, ending_of};
ghost use Rattle.session_rules.specs.Rounds.{IsOver};
ghost use Rattle.sync_hello.specs.Checked.{hello_refusal};
ghost use Rattle.sync_core.specs.SyncRules.{IsVersion};
ghost use Rattle.sync_link.specs.Plans.{own_hello, planned};
ghost use Rattle.sync_link.specs.Asking.{AsksOnce, IsAskedOnce};
ghost use Rattle.sync_link.specs.SessionPromises.{KeepsSessionPromises};
ghost use Rattle.sync_link.specs.Run.{ActsInTime, Runs};
ghost use Rattle.sync_link.specs.UnderWay.{Start, EndsInTime, EndsSo, IsBy, IsCounted, IsStill, IsUnderWay, GoesOnOrEnds, now_of};

use crate::plan::{SessionPlan, SessionReport};
use crate::run::opening::{known_plan, known_rows, open_session};
use crate::run::piece::{Session, hear_piece};
use crate::side::standing::Standing;
use auth_entry::{AuthorisedEntry, Checker};
use ns_cell::{NsCell, Pass};
use row_intake::Tally;
use scheme_core::{Scheme, Signer};
use session_end::SessionEnd;
use std::alloc::Global;
use std::sync::Wait;
use std::thread::Threads;
use willow_area::Area;
use willow_outside::Link;

// How many bytes are asked for in one read.
const PIECE: usize = 65_536;

/// Runs a session with the side at the other end of the link: the two greet each other, and then they exchange their rows in
/// the area that both may read, in the highest version that both speak. The side takes a snapshot of the cell first, in a turn
/// of its own, and answers from what it offers of that alone. Rows that it is sent are checked and offered to the cell as they
/// come, those of each list by themselves, and stay there whatever the end is. No turn of the cell is held while the link is
/// read or written. Nothing is read behind the piece of the link in which the session comes to its end, and no piece before all
/// that was due is written. The signer is asked for one signature at most, the side's proof, once that is due to what was read;
/// where it fails, that is what is answered.
pub fn run_session<R: Wait + Threads + Sync, S: Scheme, C: Checker<S>, K: Signer, L: Link>(
    rt: &R,
    alloc: Global,
    cell: &NsCell<AuthorisedEntry<S>>,
    pass: &mut Pass<AuthorisedEntry<S>>,
    plan: &SessionPlan<S>,
    checker: &mut C,
    signer: &mut K,
    nonce: [u8; 16],
    link: &mut L,
) -> Result<SessionReport, SessionEnd>
    requires pass { IsPassOf cell.now pass.old }
    requires namespace { C.judged_in checker.old ≡ cell.now.namespace }
    requires hello { hello_refusal S.rules cell.now.namespace (own_hello plan.now nonce) ≡ None }
    requires version { IsVersion plan.now.version }
    requires signs { 1 ≤ K.left signer.old }
    ensures runs { Runs (planned S.rules cell.now.namespace plan.now nonce) (K.gives signer.old) pass.old pass.new (L.facts link.old) (L.facts link.new) (K.faults signer.old) (K.faults signer.new) result }
    ensures promises { KeepsSessionPromises (planned S.rules cell.now.namespace plan.now nonce) (K.gives signer.old) pass.old pass.new (L.facts link.old) (L.facts link.new) (K.faults signer.old) (K.faults signer.new) result }
    ensures in_time { ActsInTime (signer.new ≡ signer.old) (L.most link.old) (planned S.rules cell.now.namespace plan.now nonce) (K.gives signer.old)
        pass.old pass.new (L.facts link.old) (L.facts link.new) (K.faults signer.old) (K.faults signer.new) result }
    ensures pass { IsPassOf cell.now pass.new }
    ensures namespace { C.judged_in checker.new ≡ C.judged_in checker.old }
    ensures gives { K.gives signer.new ≡ K.gives signer.old }
    ensures asks { (signer.new ≡ signer.old) ⊎ K.asks signer.old signer.new }
    ensures most { L.most link.new ≡ L.most link.old }
{
    known_plan(plan, nonce);
    let snapshot = match cell.snapshot(rt, pass) {
        Ok(snapshot) => snapshot,
        Err(_) => return Err(SessionEnd::NoMemory),
    };
    known_rows(&snapshot);
    let opened = pass.seen();
    match open_session(alloc, checker.namespace(), plan, nonce, snapshot, link) {
        Ok(session) => run_opened(
            rt, alloc, cell, pass, checker, signer, link, opened, session,
        ),
        Err(end) => Err(end),
    }
}

// Runs a session that was opened, over a log that had so many rows then, to its end.
fn run_opened<R: Wait + Threads + Sync, S: Scheme, C: Checker<S>, K: Signer, L: Link>(
    rt: &R,
    alloc: Global,
    cell: &NsCell<AuthorisedEntry<S>>,
    pass: &mut Pass<AuthorisedEntry<S>>,
    checker: &mut C,
    signer: &mut K,
    link: &mut L,
    opened: u32,
    mut session: Session<S>,
) -> Result<SessionReport, SessionEnd>
    requires pass { IsPassOf cell.now pass.old }
    requires namespace { C.judged_in checker.old ≡ cell.now.namespace }
    requires counted { IsCounted session }
    requires begun { (start : Start) × (IsBy start S.rules cell.now.namespace (K.gives signer.old) (L.most link.old)
        × IsUnderWay start (now_of S.rules session pass.old (L.facts link.old) (K.left signer.old) (K.faults signer.old))) }
    ensures pass { IsPassOf cell.now pass.new }
    ensures namespace { C.judged_in checker.new ≡ C.judged_in checker.old }
    ensures gives { K.gives signer.new ≡ K.gives signer.old }
    ensures most { L.most link.new ≡ L.most link.old }
    ensures asks { AsksOnce K.asks session.side.signature signer.old signer.new }
    ensures ends { (start : Start) → opened ≡ length start.log → IsBy start S.rules cell.now.namespace (K.gives signer.old) (L.most link.old)
        → IsUnderWay start (now_of S.rules session pass.old (L.facts link.old) (K.left signer.old) (K.faults signer.old))
        → EndsInTime start pass.new (L.facts link.new) (K.faults signer.new) (IsStill session.side.signature signer.old signer.new) result }
{
    let ended = talk(rt, alloc, cell, pass, checker, signer, link, &mut session);
    let tally = session.tally;
    let counted = session.side.items();
    let area = session.side.into_area();
    match ended {
        Ok(()) => Ok(report(opened, pass, tally, counted, area)),
        Err(end) => Err(end),
    }
}

// Hears the other side, a piece at a time, until nothing more is due, and answers how the session ended, if it did not end well.
fn talk<R: Wait + Threads + Sync, S: Scheme, C: Checker<S>, K: Signer, L: Link>(
    rt: &R,
    alloc: Global,
    cell: &NsCell<AuthorisedEntry<S>>,
    pass: &mut Pass<AuthorisedEntry<S>>,
    checker: &mut C,
    signer: &mut K,
    link: &mut L,
    session: &mut Session<S>,
) -> Result<(), SessionEnd>
    requires pass { IsPassOf cell.now pass.old }
    requires namespace { C.judged_in checker.old ≡ cell.now.namespace }
    requires counted { IsCounted session.old }
    ensures pass { IsPassOf cell.now pass.new }
    ensures namespace { C.judged_in checker.new ≡ C.judged_in checker.old }
    ensures most { L.most link.new ≡ L.most link.old }
    ensures asking { IsAskedOnce K.gives K.asks session.old.side.signature session.new.side.signature signer.old signer.new result }
    ensures goes_on { (start : Start) → IsBy start S.rules cell.now.namespace (K.gives signer.old) (L.most link.old)
        → IsUnderWay start (now_of S.rules session.old pass.old (L.facts link.old) (K.left signer.old) (K.faults signer.old))
        → GoesOnOrEnds start (now_of S.rules session.new pass.new (L.facts link.new) (K.left signer.new) (K.faults signer.new))
        (IsStill session.old.side.signature signer.old signer.new) result }
    ensures done { OnOk result (ending_of session.new.side.stand ≡ Done) }
    ensures kept { OnOk result (session.new.tally.missed ≡ 0) }
{
    let mut room = match vec![in alloc; 0u8; PIECE] {
        Ok(room) => room,
        Err(_) => return Err(SessionEnd::NoMemory),
    };
    'talking: while is_open(session) {
        match hear_piece(
            rt, alloc, cell, pass, checker, signer, link, session, &mut room,
        ) {
            Ok(()) => {}
            Err(end) => return Err(end),
        }
    }
    match check_end(session) {
        Ok(()) => Ok(()),
        Err(end) => Err(end),
    }
}

// Whether more is due.
fn is_open<S: Scheme>(session: &Session<S>) -> bool
    ensures open { IsTrue result → ending_of session.now.side.stand ≡ More }
    ensures over { result ≡ false → IsOver (ending_of session.now.side.stand) }
{
    match session.side.standing() {
        Standing::More => true,
        Standing::Done | Standing::BadMessage { .. } | Standing::Hello(_) | Standing::Core(_) =>
            false,
    }
}

// How a session ended in which nothing more is due, if it did not end well.
fn check_end<S: Scheme>(session: &Session<S>) -> Result<(), SessionEnd>
    requires over { IsOver (ending_of session.now.side.stand) }
    ensures done { OnOk result (ending_of session.now.side.stand ≡ Done) }
    ensures kept { OnOk result (session.now.tally.missed ≡ 0) }
    ensures ends { (start : Start) (pass : PassValue AuthorisedValue) (link : LinkFacts) (left faults : ℕ)
        → IsUnderWay start (now_of S.rules session.now pass link left faults)
        → IfErr result (EndsSo start pass link faults (session.now.side.signature ≡ None)) }
{
    match session.side.standing() {
        Standing::More => unreachable!(),
        Standing::BadMessage { at } => Err(SessionEnd::BadMessage { at }),
        Standing::Hello(cause) => Err(SessionEnd::Hello(cause)),
        Standing::Core(cause) => Err(SessionEnd::Core(cause)),
        Standing::Done => match session.tally.missed {
            0 => Ok(()),
            missed => Err(SessionEnd::LogFull { missed }),
        },
    }
}

// What is told of a session that ended well, of which these items were counted.
fn report<S: Scheme>(
    opened: u32,
    pass: &Pass<AuthorisedEntry<S>>,
    tally: Tally,
    counted: (u32, u32),
    area: Option<Area>,
) -> SessionReport
    requires few { tally.stored < 2 ^ 32 }
    ensures log { (result.opened ≡ opened) × (result.closed ≡ length pass.now.seen) }
    ensures rows { (result.stored ≡ tally.stored) × (result.kept ≡ tally.kept) }
    ensures refused { (result.refused ≡ tally.refused) × (result.first ≡ tally.first) }
    ensures items { (result.sent ≡ counted.0) × (result.read ≡ counted.1) }
    ensures area { result.area ≡ area }
{
    SessionReport {
        opened,
        closed: pass.seen(),
        stored: tally.stored as u32,
        kept: tally.kept,
        refused: tally.refused,
        first: tally.first,
        sent: counted.0,
        read: counted.1,
        area,
    }
}
