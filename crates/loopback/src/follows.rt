//! A server that feeds those who stay, and two who call it and follow, in three threads. Each of the two brings a row that is new
//! to the others. Which session begins or ends first is open, and with it what a session brings and what a feed; whichever it is,
//! all three have all rows in the end.

ghost use Rattle.willow_outside.specs.Links.{IsFresh};

use crate::given::Given;
use crate::run::{Outcome, Side, feeding_words, following_words, over};
use paired_links::pair;
use std::alloc::{AllocError, Global};
use std::sync::Wait;
use std::thread;
use std::thread::Threads;
use willow_outside::{Door, Link, MemDoor};

// A place that is not looked at.
const PLACE: &str = "there:1";

/// What three begin with who stay together: what is printed of where they are, and the names of the images of the server and of
/// the two who call it.
pub(crate) struct Three {
    title: &'static str,
    server: &'static str,
    callers: (&'static str, &'static str),
}

/// All have many rows, and each caller has one more.
pub(crate) static MANY: Three = Three {
    title: "where both stay",
    server: "forty",
    callers: ("one-new", "other-new"),
};

/// The server has none, and each caller has one.
pub(crate) static ONE_EACH: Three = Three {
    title: "where both stay with one row each",
    server: "no-row",
    callers: ("one-row", "other-row"),
};

// A door that hands out one link.
fn door_to<L: Link + Send + Drop>(alloc: Global, link: L) -> Result<MemDoor<L>, AllocError>
    requires fresh { IsFresh (L.facts link) }
{
    let mut links = Vec::new(alloc);
    links.push(link).map_err(|unsaid| AllocError::from(unsaid))?;
    Ok(MemDoor::new(alloc, links, Vec::new(alloc)))
}

// A door that hands out one link, and then another one.
fn door_to_both<L: Link + Send + Drop>(
    alloc: Global,
    link: L,
    other: L,
) -> Result<MemDoor<L>, AllocError>
    requires fresh { IsFresh (L.facts link) }
    requires other { IsFresh (L.facts other) }
{
    let mut links = Vec::new(alloc);
    links.push(link).map_err(|unsaid| AllocError::from(unsaid))?;
    links
        .push(other)
        .map_err(|unsaid| AllocError::from(unsaid))?;
    Ok(MemDoor::new(alloc, links, Vec::new(alloc)))
}

// Calls the server over the door with an image, and follows.
fn call<R: Wait + Threads + Sync, D: Door>(
    rt: &R,
    alloc: Global,
    given: &Given,
    image: &str,
    door: &mut D,
) -> Result<Outcome, AllocError> {
    let side = Side {
        given,
        image,
        draws: "caller-draw",
    };
    over(rt, alloc, &following_words(PLACE), side, door)
}

// Runs the server over the door to both links, and those who call over the others, and tells what each has in the end.
fn lines_over<
    R: Wait + Threads + Sync,
    D: Door + Send + Drop,
    E: Door + Send + Drop,
    F: Door + Send + Drop,
>(
    rt: &R,
    alloc: Global,
    given: &Given,
    three: &Three,
    mut both: D,
    mut one: E,
    mut other: F,
) -> Result<String, AllocError> {
    let side = Side {
        given,
        image: three.server,
        draws: "server-draws",
    };
    let (server, (first, second)) = thread::join(
        rt,
        || over(rt, alloc, &feeding_words(PLACE, "2"), side, &mut both),
        || thread::join(
            rt,
            || call(rt, alloc, given, three.callers.0, &mut one),
            || call(rt, alloc, given, three.callers.1, &mut other),
        ),
    );
    let title = three.title;
    let server = server?.head(alloc, "the server")?;
    let first = first?.head(alloc, "the first")?;
    let second = second?.head(alloc, "the second")?;
    format!(in alloc; "{title}, {server}{title}, {first}{title}, {second}")
}

/// Runs them over two links between threads, and tells what each has in the end.
pub(crate) fn follow_lines<R: Wait + Threads + Clone + Drop + Send + Sync>(
    rt: &R,
    alloc: Global,
    given: &Given,
    three: &Three,
) -> Result<String, AllocError> {
    let Ok((near, first)) = pair(rt, alloc) else {
        return Err(AllocError);
    };
    let Ok((other, second)) = pair(rt, alloc) else {
        return Err(AllocError);
    };
    let both = door_to_both(alloc, near, other)?;
    let one = door_to(alloc, first)?;
    let other = door_to(alloc, second)?;
    lines_over(rt, alloc, given, three, both, one, other)
}
