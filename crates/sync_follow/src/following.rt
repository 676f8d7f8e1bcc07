//! Following: a feed is read and taken into a log.

ghost use Rattle.std.specs.Prelude.{◌≡◌, ◌<◌, ◌^◌, option_map, IfSome, OnOk};
ghost use Rattle.willow_outside.specs.Facts.{LinkFacts};
ghost use Rattle.willow_area.specs.declared.area.Area.{Area};
ghost use Rattle.auth_entry.specs.Authorised.{AuthorisedValue};
ghost use Rattle.ns_cell.specs.Passes.{PassValue, IsPassOf};
ghost use Rattle.sync_follow.specs.Follows.{Follows, told_first};
ghost use Rattle.sync_follow.specs.UnderWay.{Start, EndsAs, GoesOnOrEnds, IsBy, IsCounted, IsNew, IsUnderWay, now_of};

use crate::hear::Ear;
use crate::piece::{Course, hear_piece};
use crate::place::{Due, Place, is_due, known_read};
use crate::report::FollowReport;
use auth_entry::{AuthorisedEntry, Checker};
use mc_cap::{RefusedRow, RowRefusal};
use ns_cell::{NsCell, Pass};
use row_intake::Tally;
use scheme_core::Scheme;
use session_end::SessionEnd;
use std::alloc::Global;
use std::sync::Wait;
use std::thread::Threads;
use sync_msg::CoreRefusal;
use willow_area::Area;
use willow_outside::Link;

/// How many bytes are asked for in one read.
const PIECE: usize = 65_536;

/// Follows the one at the other end of the link, which feeds: its rows are read up to the end of the feed, checked, and those
/// that are authorised offered to the cell as they come; they stay there whatever the end is. The first row whose entry the area
/// does not include is refused as `EntryOutside`. Offsets count from the feed's first byte. Nothing is written, no turn of the
/// cell is held while the link is read, and nothing is read behind the piece of the link in which the feed came to its end.
pub fn follow<R: Wait + Threads + Sync, S: Scheme, C: Checker<S>, L: Link>(
    rt: &R,
    alloc: Global,
    cell: &NsCell<AuthorisedEntry<S>>,
    pass: &mut Pass<AuthorisedEntry<S>>,
    area: &Area,
    checker: &mut C,
    link: &mut L,
) -> Result<FollowReport, SessionEnd>
    requires pass { IsPassOf cell.now pass.old }
    requires namespace { C.judged_in checker.old ≡ cell.now.namespace }
    ensures pass { IsPassOf cell.now pass.new }
    ensures namespace { C.judged_in checker.new ≡ C.judged_in checker.old }
    ensures most { L.most link.new ≡ L.most link.old }
    ensures follows { Follows S.rules cell.now.namespace area.now (L.most link.old) pass.old pass.new (L.facts link.old) (L.facts link.new) result }
{
    let _number = pass.number();
    let mut course = begin(alloc);
    match read_all(rt, alloc, cell, pass, area, checker, link, &mut course) {
        Ok(()) => report(&course),
        Err(end) => Err(end),
    }
}

// Nothing was read yet.
fn begin(alloc: Global) -> Course
    ensures { IsNew result }
{
    Course {
        ear: Ear {
            place: Place {
                due: Due::Message,
                count: 0,
            },
            at: 0,
            held: Vec::new(alloc),
        },
        tally: Tally::new(),
        count: 0,
    }
}

// Reads a feed, a piece at a time, until nothing more is due.
fn read_all<R: Wait + Threads + Sync, S: Scheme, C: Checker<S>, L: Link>(
    rt: &R,
    alloc: Global,
    cell: &NsCell<AuthorisedEntry<S>>,
    pass: &mut Pass<AuthorisedEntry<S>>,
    area: &Area,
    checker: &mut C,
    link: &mut L,
    course: &mut Course,
) -> Result<(), SessionEnd>
    requires pass { IsPassOf cell.now pass.old }
    requires namespace { C.judged_in checker.old ≡ cell.now.namespace }
    requires counted { IsCounted area.now course.old }
    ensures pass { IsPassOf cell.now pass.new }
    ensures namespace { C.judged_in checker.new ≡ C.judged_in checker.old }
    ensures most { L.most link.new ≡ L.most link.old }
    ensures counted { OnOk result (IsCounted area.now course.new) }
    ensures over { OnOk result (course.new.ear.place.due ≡ Due.Message → ⊥) }
    ensures goes_on { (start : Start) → IsBy start S.rules cell.now.namespace area.now (L.most link.old)
        → IsUnderWay start (now_of course.old pass.old (L.facts link.old))
        → GoesOnOrEnds start (now_of course.new pass.new (L.facts link.new)) result }
{
    let mut room = match vec![in alloc; 0u8; PIECE] {
        Ok(room) => room,
        Err(_) => return Err(SessionEnd::NoMemory),
    };
    'reading: while is_due(course.ear.place.due) {
        known_read(course.count);
        match hear_piece(
            rt, alloc, cell, pass, area, checker, link, course, &mut room,
        ) {
            Ok(()) => {}
            Err(end) => return Err(end),
        }
    }
    Ok(())
}

// What is told of a feed of which nothing more is due.
fn report(course: &Course) -> Result<FollowReport, SessionEnd>
    requires over { course.now.ear.place.due ≡ Due.Message → ⊥ }
    requires counted { (area : Area) × IsCounted area course.now }
    ensures { (start : Start) (pass : PassValue AuthorisedValue) (link : LinkFacts) → IsUnderWay start (now_of course.now pass link) → EndsAs start pass link result }
{
    match course.ear.place.due {
        Due::Message => unreachable!(),
        Due::Bad => Err(SessionEnd::BadMessage { at: course.ear.at }),
        Due::Outside => Err(SessionEnd::Core(CoreRefusal::EntryOutside)),
        Due::Nothing => done(course),
    }
}

// The same of one that was read whole.
fn done(course: &Course) -> Result<FollowReport, SessionEnd>
    requires over { course.now.ear.place.due ≡ Due.Nothing }
    requires counted { (area : Area) × IsCounted area course.now }
    ensures { (start : Start) (pass : PassValue AuthorisedValue) (link : LinkFacts) → IsUnderWay start (now_of course.now pass link) → EndsAs start pass link result }
{
    let tally = course.tally;
    let _count = course.ear.place.count;
    if tally.missed > 0 {
        return Err(SessionEnd::LogFull {
            missed: tally.missed,
        });
    }
    Ok(FollowReport {
        read: tally.rows as u32,
        stored: tally.stored as u32,
        kept: tally.kept as u32,
        refused: tally.refused as u32,
        first: told(tally.first),
    })
}

// A row's number and why it is refused.
fn told(first: Option<RefusedRow>) -> Option<(u32, RowRefusal)>
    requires { IfSome first (λ refused. refused.row < 2 ^ 32) }
    ensures { result ≡ option_map told_first first }
{
    match first {
        Some(refused) => Some((refused.row as u32, refused.refusal)),
        None => None,
    }
}
