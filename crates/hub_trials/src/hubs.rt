//! Watchers that stay and that leave, as a table, and keys.

use crate::listener::Listener;
use crate::rows::{area, slice};
use std::alloc::Global;
use std::sync::Arc;
use std::sync::atomic::{AtomicU64, Ordering};
use std::test::*;
use sub_hub::{Hub, HubKey, Watcher};

// A hub of this front and this area, with a watcher of /61 that stays. Behind the first of three pumps another is added for an
// area, which stays for so many notes. Rows and areas are told by their paths, rows are numbered from 1 on.
struct Case {
    begin: u32,
    served: &'static [u8],
    before: &'static [u8],
    other: &'static [u8],
    stays: usize,
    first: &'static [u8],
    second: &'static [u8],
    // how many leave in the two pumps behind the add
    left: (u32, u32),
    // the numbers of the rows of which each heard, as digits
    heard: (u64, u64),
    front: u32,
}

const CASES: [Case; 8] = [
    // at its first note, and nothing comes behind
    Case {
        begin: 0,
        served: b"",
        before: b"",
        other: b"b",
        stays: 0,
        first: b"a b bc ",
        second: b"",
        left: (1, 0),
        heard: (1, 2),
        front: 3,
    },
    // at its first note
    Case {
        begin: 0,
        served: b"",
        before: b"",
        other: b"b",
        stays: 0,
        first: b"a b bc ",
        second: b"b a ",
        left: (1, 0),
        heard: (15, 2),
        front: 5,
    },
    // at a middle one
    Case {
        begin: 0,
        served: b"",
        before: b"",
        other: b"b",
        stays: 1,
        first: b"a b bc ",
        second: b"b a ",
        left: (1, 0),
        heard: (15, 23),
        front: 5,
    },
    // at its last
    Case {
        begin: 0,
        served: b"",
        before: b"",
        other: b"b",
        stays: 2,
        first: b"a b bc ",
        second: b"b a ",
        left: (0, 1),
        heard: (15, 234),
        front: 5,
    },
    // never
    Case {
        begin: 0,
        served: b"",
        before: b"",
        other: b"b",
        stays: 3,
        first: b"a b bc ",
        second: b"b a ",
        left: (0, 0),
        heard: (15, 234),
        front: 5,
    },
    // it is added between pumps
    Case {
        begin: 0,
        served: b"",
        before: b"b a ",
        other: b"b",
        stays: 9,
        first: b"b ",
        second: b"a bc ",
        left: (0, 0),
        heard: (24, 35),
        front: 5,
    },
    // so too, and leaves at its last note
    Case {
        begin: 0,
        served: b"",
        before: b"b a ",
        other: b"b",
        stays: 1,
        first: b"b ",
        second: b"a bc ",
        left: (0, 1),
        heard: (24, 35),
        front: 5,
    },
    // the hub's area leaves out what a watcher's includes
    Case {
        begin: 5,
        served: b"b",
        before: b"a ",
        other: b"",
        stays: 9,
        first: b"a b ",
        second: b"bc ",
        left: (0, 0),
        heard: (0, 89),
        front: 9,
    },
];

// What two watchers show.
#[derive(Drop)]
struct Words {
    one: Arc<AtomicU64>,
    other: Arc<AtomicU64>,
}

// Words that show nothing yet.
fn make_words(alloc: Global) -> Option<Words> {
    Some(Words {
        one: Arc::new(alloc, AtomicU64::new(0)).ok()?,
        other: Arc::new(alloc, AtomicU64::new(0)).ok()?,
    })
}

// Whether they show these digits.
fn show(words: &Words, heard: (u64, u64)) -> bool {
    words.one.load(Ordering::SeqCst) == heard.0 && words.other.load(Ordering::SeqCst) == heard.1
}

// One that stays, and one that stays for so many notes.
fn listeners(alloc: Global, words: &Words, stays: usize) -> Option<(Listener, Listener)> {
    let one = Listener::new(alloc, 9, &words.one)?;
    Some((one, Listener::new(alloc, stays, &words.other)?))
}

// Adds a watcher of the area below a path.
fn added(alloc: Global, hub: &mut Hub, parts: &[u8], watcher: Box<dyn Watcher>) -> Option<HubKey> {
    if hub.added() == u32::MAX {
        return None;
    }
    hub.add(area(alloc, parts)?, watcher).ok()
}

// Pumps rows at these paths. Answers how many left.
fn pumped(alloc: Global, hub: &mut Hub, text: &[u8]) -> Option<u32> {
    let rows = slice(alloc, text)?;
    if rows.len() > 100 || hub.front() > 100 {
        return None;
    }
    Some(hub.pump(&rows))
}

// Whether a watcher is handed back, and not a second time.
fn is_removed_once(hub: &mut Hub, key: HubKey) -> bool {
    hub.remove(key).is_some() && hub.remove(key).is_none()
}

// Begins, adds the first, and pumps what comes before the other is added.
fn begun(alloc: Global, hub: &mut Hub, case: &Case, one: Box<dyn Watcher>) -> Option<u32> {
    hub.begin(case.begin, area(alloc, case.served)?);
    let _one = added(alloc, hub, b"a", one)?;
    pumped(alloc, hub, case.before)
}

// Whether so many leave in the two pumps.
fn leave(alloc: Global, hub: &mut Hub, case: &Case) -> Option<bool> {
    let left = pumped(alloc, hub, case.first)?;
    Some(left == case.left.0 && pumped(alloc, hub, case.second)? == case.left.1)
}

// Whether both leave as the case says, the other is handed back once, and the front is so.
fn are_told(
    alloc: Global,
    hub: &mut Hub,
    case: &Case,
    one: Box<dyn Watcher>,
    other: Box<dyn Watcher>,
) -> Option<bool> {
    let before = begun(alloc, hub, case, one)?;
    let key = added(alloc, hub, case.other, other)?;
    let leave = leave(alloc, hub, case)?;
    Some(before == 0 && leave && is_removed_once(hub, key) && hub.front() == case.front)
}

// The same in a hub as new.
fn come_out(alloc: Global, case: &Case, both: (Listener, Listener)) -> Option<bool> {
    let one: Box<dyn Watcher> = Box::new(alloc, both.0).ok()?;
    let other: Box<dyn Watcher> = Box::new(alloc, both.1).ok()?;
    are_told(alloc, &mut Hub::new(alloc), case, one, other)
}

// The same, and whether both heard as the case says.
fn is_case(alloc: Global, words: &Words, case: &Case) -> Option<bool> {
    let are_told = come_out(alloc, case, listeners(alloc, words, case.stays)?)?;
    Some(are_told && show(words, case.heard))
}

// Whether all cases come out so.
fn are_cases(alloc: Global) -> Option<bool> {
    for case in &CASES {
        if !is_case(alloc, &make_words(alloc)?, case)? {
            return Some(false);
        }
    }
    Some(true)
}

#[test]
fn watchers_leave(rt: HostRuntime) -> Result<(), Fail> {
    assert!(rt; are_cases(rt.alloc()) == Some(true));
    Ok(())
}

// Whether a key is not given again where its slot is, and finds nobody then.
fn find_nobody(
    alloc: Global,
    hub: &mut Hub,
    one: Box<dyn Watcher>,
    other: Box<dyn Watcher>,
) -> Option<bool> {
    let old = added(alloc, hub, b"a", one)?;
    let _back = hub.remove(old)?;
    let new = added(alloc, hub, b"a", other)?;
    Some(old != new && hub.remove(old).is_none() && is_removed_once(hub, new) && hub.added() == 2)
}

// The same in a hub as new.
fn is_given_once(alloc: Global, both: (Listener, Listener)) -> Option<bool> {
    let one: Box<dyn Watcher> = Box::new(alloc, both.0).ok()?;
    let other: Box<dyn Watcher> = Box::new(alloc, both.1).ok()?;
    find_nobody(alloc, &mut Hub::new(alloc), one, other)
}

// Whether no key comes twice.
fn are_given_once(alloc: Global) -> Option<bool> {
    is_given_once(alloc, listeners(alloc, &make_words(alloc)?, 9)?)
}

#[test]
fn no_key_comes_twice(rt: HostRuntime) -> Result<(), Fail> {
    assert!(rt; are_given_once(rt.alloc()) == Some(true));
    Ok(())
}
