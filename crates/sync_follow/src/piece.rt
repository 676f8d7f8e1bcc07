//! One piece of a feed, from the link to the log.

ghost use Rattle.std.specs.Prelude.{◌≡◌, ◌+◌, ◌<◌, ◌≤◌, length, OnOk};
ghost use Rattle.willow_outside.specs.Facts.{LinkFacts};
ghost use Rattle.ns_cell.specs.Passes.{IsPassOf};
ghost use Rattle.row_intake.specs.Links.{GaveBytes};
ghost use Rattle.sync_follow.specs.UnderWay.{Start, GoesOnOrEnds, IsBy, IsCounted, IsUnderWay, now_of};

use crate::hear::{Ear, hear_on};
use crate::intake::take_rows;
use crate::place::{Due, known_count};
use auth_entry::{AuthorisedEntry, Checker};
use ns_cell::{NsCell, Pass};
use row_intake::{Tally, known_raws};
use scheme_core::Scheme;
use session_end::SessionEnd;
use std::alloc::Global;
use std::sync::Wait;
use std::thread::Threads;
use willow_area::Area;
use willow_outside::{Fault, Link};

// A feed that is under way: how one stands who follows, what became of the rows that came, and how many bytes were read.
#[derive(Drop)]
pub(crate) struct Course {
    pub(crate) ear: Ear,
    pub(crate) tally: Tally,
    pub(crate) count: u64,
}

// Reads a piece of the link, into room for some bytes, and takes it in.
pub(crate) fn hear_piece<R: Wait + Threads + Sync, S: Scheme, C: Checker<S>, L: Link>(
    rt: &R,
    alloc: Global,
    cell: &NsCell<AuthorisedEntry<S>>,
    pass: &mut Pass<AuthorisedEntry<S>>,
    area: &Area,
    checker: &mut C,
    link: &mut L,
    course: &mut Course,
    room: &mut [u8],
) -> Result<(), SessionEnd>
    requires pass { IsPassOf cell.now pass.old }
    requires namespace { C.judged_in checker.old ≡ cell.now.namespace }
    requires counted { IsCounted area.now course.old }
    requires room { 1 ≤ length room.old }
    requires due { course.old.ear.place.due ≡ Due.Message }
    ensures pass { IsPassOf cell.now pass.new }
    ensures namespace { C.judged_in checker.new ≡ C.judged_in checker.old }
    ensures most { L.most link.new ≡ L.most link.old }
    ensures counted { OnOk result (IsCounted area.now course.new) }
    ensures grows { OnOk result (course.old.count < course.new.count) }
    ensures goes_on { (start : Start) → IsBy start S.rules cell.now.namespace area.now (L.most link.old)
        → IsUnderWay start (now_of course.old pass.old (L.facts link.old))
        → GoesOnOrEnds start (now_of course.new pass.new (L.facts link.new)) result }
{
    match link.read(room) {
        Ok(0) => Err(SessionEnd::ClosedEarly { at: course.count }),
        Ok(n) => take_piece(rt, alloc, cell, pass, area, checker, course, &room[..n]),
        Err(Fault::Failed) => Err(SessionEnd::LinkRead),
        Err(Fault::NoMemory) => Err(SessionEnd::NoMemory),
    }
}

// Takes in a piece that a link gave: its rows are offered to the log.
fn take_piece<R: Wait + Threads + Sync, S: Scheme, C: Checker<S>>(
    rt: &R,
    alloc: Global,
    cell: &NsCell<AuthorisedEntry<S>>,
    pass: &mut Pass<AuthorisedEntry<S>>,
    area: &Area,
    checker: &mut C,
    course: &mut Course,
    piece: &[u8],
) -> Result<(), SessionEnd>
    requires pass { IsPassOf cell.now pass.old }
    requires namespace { C.judged_in checker.old ≡ cell.now.namespace }
    requires counted { IsCounted area.now course.old }
    requires some { 1 ≤ length piece.now }
    requires due { course.old.ear.place.due ≡ Due.Message }
    ensures pass { IsPassOf cell.now pass.new }
    ensures namespace { C.judged_in checker.new ≡ C.judged_in checker.old }
    ensures counted { OnOk result (IsCounted area.now course.new) }
    ensures grows { OnOk result (course.new.count ≡ course.old.count + length piece.now) }
    ensures goes_on { (start : Start) (before link : LinkFacts) → IsBy start S.rules cell.now.namespace area.now start.most → length piece.now ≤ start.most
        → IsUnderWay start (now_of course.old pass.old before)
        → GaveBytes before link piece.now
        → GoesOnOrEnds start (now_of course.new pass.new link) result }
{
    let count = match course.count.checked_add(piece.len() as u64) {
        Some(count) => count,
        None => return Err(SessionEnd::NoMemory),
    };
    let mut came = Vec::new(alloc);
    match hear_on(alloc, area, &mut course.ear, piece, &mut came) {
        Ok(()) => {}
        Err(_) => return Err(SessionEnd::NoMemory),
    }
    course.count = count;
    known_count(course.ear.place.count);
    known_raws(&came);
    match take_rows(rt, alloc, cell, pass, checker, &mut course.tally, came) {
        Ok(()) => Ok(()),
        Err(_) => Err(SessionEnd::NoMemory),
    }
}
