//! Keys and paths: their limits, orders, successors and spellings.

use crate::names::{self, Parts, path_of};
use spelling::{Input, Unread};
use std::alloc::Global;
use std::cmp::Ordering;
use std::test::*;
use willow_path::{
    Digest, End, MAX_PARTS, NamespaceKey, NotHere, Path, PathRefusal, UserKey, laws, read_digest,
    read_namespace_key, read_path, read_user_key,
};

// Components of as many bytes as one may have.
const HIGH: &[u8] = &[0xff; 255];

const LONG: &[u8] = &[0x61; 255];

// Many components.
const MANY: Parts = &[
    b"a", b"", b"ccc", b"d", b"e", b"f", b"g", b"h", b"i", b"j", b"k", b"l", b"m", b"n", b"o",
    b"pp",
];

// Components of as many bytes as a path may have.
const WIDE: Parts = &[
    LONG,
    HIGH,
    LONG,
    HIGH,
    LONG,
    HIGH,
    LONG,
    HIGH,
    LONG,
    HIGH,
    LONG,
    HIGH,
    LONG,
    HIGH,
    LONG,
    HIGH,
    b"sixteen letters!",
];

// Sixteen bytes fewer.
const NEARLY_WIDE: Parts = &[
    LONG, LONG, LONG, LONG, LONG, LONG, LONG, LONG, LONG, LONG, LONG, LONG, LONG, LONG, LONG, LONG,
];

// The same bytes, with a last component that can only be raised.
const RAISED: Parts = &[
    LONG,
    LONG,
    LONG,
    LONG,
    LONG,
    LONG,
    LONG,
    LONG,
    LONG,
    LONG,
    LONG,
    LONG,
    LONG,
    LONG,
    LONG,
    LONG,
    b"b\xff\xff\xff\xff\xff\xff\xff\xff\xff\xff\xff\xff\xff\xff\xff",
];

// What comes behind it.
const BEHIND_RAISED: Parts = &[
    LONG, LONG, LONG, LONG, LONG, LONG, LONG, LONG, LONG, LONG, LONG, LONG, LONG, LONG, LONG, LONG,
    b"c",
];

// Whether the least path above all extensions of a path is this one, or there is none.
fn comes_after(alloc: Global, parts: &[&[u8]], due: Option<&[&[u8]]>) -> Option<bool> {
    let found = path_of(alloc, parts)?.after_prefixed().ok()?;
    match due {
        None => Some(found.is_none()),
        Some(parts) => Some(found? == path_of(alloc, parts)?),
    }
}

const SUCCESSORS: &[(Parts, Option<Parts>)] = &[
    (&[], None),
    (&[b"a"], Some(&[b"a\0"])),
    (&[HIGH], None),
    (&[b"a", HIGH], Some(&[b"a\0"])),
    (
        &[LONG, LONG, LONG, LONG, b"b\xff\xff\xff"],
        Some(&[LONG, LONG, LONG, LONG, b"b\xff\xff\xff\0"]),
    ),
    (RAISED, Some(BEHIND_RAISED)),
];

#[test]
fn successors_of_paths(rt: HostRuntime) {
    let alloc = rt.alloc();
    for (parts, due) in SUCCESSORS {
        assert!(rt; comes_after(alloc, parts, *due) == Some(true));
    }
}

// What a path of these components and one of so many bytes answers to one more, of so many bytes.
fn pushed(
    alloc: Global,
    parts: &[&[u8]],
    before: usize,
    len: usize,
) -> Option<Result<(), End<PathRefusal>>> {
    let mut path = path_of(alloc, parts)?;
    path.push([0x61; 256].get(..before)?).ok()?;
    Some(path.push([0x61; 256].get(..len)?))
}

// How many components a path has at most, and what it answers to one more.
fn pushed_onto_most(alloc: Global) -> Option<(usize, Result<(), End<PathRefusal>>)> {
    let mut path = Path::empty(alloc);
    for _ in 0..MAX_PARTS {
        path.push(b"a").ok()?;
    }
    Some((path.count(), path.push(b"a")))
}

// The numbers of components and of bytes of the path of these components.
fn numbers_of(alloc: Global, parts: &[&[u8]]) -> Option<(usize, usize)> {
    let path = path_of(alloc, parts)?;
    Some((path.count(), path.total()))
}

const PUSHED: &[(Parts, usize, usize, Result<(), End<PathRefusal>>)] = &[
    (
        &[],
        0,
        256,
        Err(End::Refused(PathRefusal::ComponentTooLong { len: 256 })),
    ),
    (&[], 0, 255, Ok(())),
    (
        NEARLY_WIDE,
        12,
        5,
        Err(End::Refused(PathRefusal::PathTooLong { total: 4097 })),
    ),
    (NEARLY_WIDE, 12, 4, Ok(())),
];

#[test]
fn limits_of_components(rt: HostRuntime) {
    let alloc = rt.alloc();
    for (parts, before, len, due) in PUSHED {
        assert!(rt; pushed(alloc, parts, *before, *len).as_ref() == Some(due));
    }
}

#[test]
fn limits_of_paths(rt: HostRuntime) {
    let full = Err(End::Refused(PathRefusal::TooManyComponents));
    assert!(rt; pushed_onto_most(rt.alloc()) == Some((255, full)));
}

const NUMBERS: &[(Parts, usize, usize)] = &[
    (&[LONG, b"", b"bc"], 3, 257),
    (MANY, 16, 18),
    (WIDE, 17, 4096),
];

#[test]
fn numbers_of_paths(rt: HostRuntime) {
    let alloc = rt.alloc();
    for (parts, count, total) in NUMBERS {
        assert!(rt; numbers_of(alloc, parts) == Some((*count, *total)));
    }
}

// How many bytes the path in front of the bytes takes, and its spelling behind a byte 09.
fn read_again(alloc: Global, bytes: &[u8]) -> Result<(usize, Vec<u8>), End<NotHere>> {
    let (path, taken) = Path::decode(alloc, bytes)?;
    let mut text = Vec::new(alloc);
    text.push(9)?;
    path.encode(&mut text)?;
    Ok((taken, text))
}

// Whether a path takes so many of the bytes and is spelled as these are.
fn is_read(alloc: Global, bytes: &[u8], due: usize) -> bool {
    match read_again(alloc, bytes) {
        Ok((taken, text)) => taken == due && text.get(1..) == bytes.get(..due),
        Err(_) => false,
    }
}

// The components of the path of these bytes, each behind a byte `/`.
fn joined_parts(alloc: Global, bytes: &[u8]) -> Option<Vec<u8>> {
    let (path, _) = Path::decode(alloc, bytes).ok()?;
    let mut text = Vec::new(alloc);
    for i in 0..path.count() {
        text.push(b'/').ok()?;
        text.extend_from_slice(path.part(i)).ok()?;
    }
    Some(text)
}

// Whether they are these.
fn are_parts(alloc: Global, bytes: &[u8], due: &[u8]) -> Option<bool> {
    Some(joined_parts(alloc, bytes)?.as_slice() == due)
}

// Whether the path of these components is read back from its spelling, which is as long as the path tells.
fn is_read_back(alloc: Global, parts: &[&[u8]]) -> Option<bool> {
    let path = path_of(alloc, parts)?;
    let mut text = Vec::new(alloc);
    path.encode(&mut text).ok()?;
    let (again, taken) = Path::decode(alloc, &text).ok()?;
    Some(again == path && taken == text.len() && taken == path.spelled_len())
}

const READ_BACK: &[Parts] = &[
    MANY,
    WIDE,
    &[b""],
    &[b"fifteen letters"],
    &[b"sixteen letters!"],
];

#[test]
fn spellings_of_paths(rt: HostRuntime) {
    let alloc = rt.alloc();
    for parts in READ_BACK {
        assert!(rt; is_read_back(alloc, parts) == Some(true));
    }
}

#[test]
fn paths_are_read(rt: HostRuntime) {
    let alloc = rt.alloc();
    let bytes = [2, 1, 0x61, 1, 0x62, 0xff];
    let found = (is_read(alloc, &bytes, 5), are_parts(alloc, &bytes, b"/a/b"));
    let cut = read_again(alloc, &[1, 2, 0x61]).err();
    assert!(rt; (found, cut) == ((true, Some(true)), Some(End::Refused(NotHere))));
}

// Whether the first path is a prefix of the second, and how they are ordered.
fn compared(alloc: Global, one: &[&[u8]], other: &[&[u8]]) -> Option<(bool, Ordering)> {
    let (one, other) = (path_of(alloc, one)?, path_of(alloc, other)?);
    Some((one.is_prefix_of(&other), one.cmp(&other)))
}

// Whether a copy of the path is equal to it.
fn is_copied(alloc: Global, parts: &[&[u8]]) -> Option<bool> {
    let path = path_of(alloc, parts)?;
    Some(path.copy().ok()? == path)
}

const ORDERS: &[(Parts, Parts, bool, Ordering)] = &[
    (&[b"a"], &[b"a", b"b"], true, Ordering::Less),
    (&[b"a", b"b"], &[b"a"], false, Ordering::Greater),
    (&[b"a"], &[b"ab"], false, Ordering::Less),
    (&[b"a", b"b"], &[b"ab"], false, Ordering::Less),
    (&[b"b"], &[b"aa"], false, Ordering::Greater),
    (&[b"b"], &[b"aa", b"c"], false, Ordering::Greater),
    (&[b"x", b"aa"], &[b"x", b"b", b""], false, Ordering::Less),
    (&[b"x"], &[b"x", b"aa"], true, Ordering::Less),
    (&[], &[b""], true, Ordering::Less),
    (&[b""], &[b"", b"a"], true, Ordering::Less),
    (&[b""], &[b"a"], false, Ordering::Less),
    (MANY, MANY, true, Ordering::Equal),
    (WIDE, MANY, false, Ordering::Greater),
];

#[test]
fn order_of_some_paths(rt: HostRuntime) {
    let alloc = rt.alloc();
    for (one, other, prefix, order) in ORDERS {
        assert!(rt; compared(alloc, one, other) == Some((*prefix, *order)));
    }
}

const COPIED: &[Parts] = &[
    MANY,
    WIDE,
    &[b"a", b"a component of more than a few bytes", b""],
];

#[test]
fn copies_of_paths(rt: HostRuntime) {
    let alloc = rt.alloc();
    for parts in COPIED {
        assert!(rt; is_copied(alloc, parts) == Some(true));
    }
}

// How the first path is ordered against so many components of the second.
fn front_compared(alloc: Global, one: &[&[u8]], other: &[&[u8]], count: usize) -> Option<Ordering> {
    Some(path_of(alloc, one)?.cmp_front(&path_of(alloc, other)?, count))
}

const FRONTS: &[(Parts, Parts, usize, Ordering)] = &[
    (&[], &[b"a"], 0, Ordering::Equal),
    (&[b"a", b"b"], &[b"a", b"b", b"c"], 2, Ordering::Equal),
    (&[b"a", b"b"], &[b"a", b"b", b"c"], 3, Ordering::Less),
    (&[b"a", b"b"], &[b"a", b"b"], 1, Ordering::Greater),
    (&[b"b"], &[b"aa"], 5, Ordering::Greater),
    (MANY, MANY, 99, Ordering::Equal),
];

#[test]
fn order_against_fronts(rt: HostRuntime) {
    let alloc = rt.alloc();
    for (one, other, count, order) in FRONTS {
        assert!(rt; front_compared(alloc, one, other, *count) == Some(*order));
    }
}

// A key of zeros with this byte at a place, and another at all places behind it.
fn key_of(place: usize, byte: u8, behind: u8) -> Option<UserKey> {
    let mut bytes = [0; 33];
    bytes.get_mut(place..)?.fill(behind);
    *bytes.get_mut(place)? = byte;
    UserKey::from_bytes(bytes)
}

// How two keys are ordered, and whether the first is less, and equal.
fn told(one: UserKey, other: UserKey) -> (Ordering, bool, bool) {
    (one.cmp(&other), one < other, one == other)
}

// What is told of two keys that differ first at this place.
fn keys_compared(place: usize) -> Option<(Ordering, bool, bool)> {
    Some(told(key_of(place, 0, 0xff)?, key_of(place, 1, 0)?))
}

#[test]
fn order_of_keys(rt: HostRuntime) {
    for place in 0..33 {
        assert!(rt; keys_compared(place) == Some((Ordering::Less, true, false)));
    }
}

// What is told of two keys that are made alike.
fn alike_compared() -> Option<(Ordering, bool, bool)> {
    Some(told(key_of(7, 1, 9)?, key_of(7, 1, 9)?))
}

// Whether the greatest key of kind 0 is followed by the least of kind 1, and the greatest of kind 1 by none.
fn are_followed() -> Option<(bool, bool)> {
    let mut want = [0; 33];
    want[0] = 1;
    let next = names::key_of(0, 0xff)?.after()?;
    let last = names::key_of(1, 0xff)?;
    Some((
        next.to_bytes().as_slice() == want.as_slice(),
        last.after().is_none(),
    ))
}

// Whether each of these keys is below the next.
fn rise() -> Option<(bool, bool, bool)> {
    let (open, last) = (names::key_of(0, 0xff)?, names::key_of(1, 0xff)?);
    let next = open.after()?;
    Some((UserKey::least() < open, open < next, next < last))
}

// Whether the bytes are those of the namespace that they make, and are read as it and as a user.
fn keys_are_read(bytes: [u8; 33]) -> Option<(bool, bool, bool)> {
    let space = NamespaceKey::from_bytes(bytes)?;
    let user = UserKey::from_bytes(bytes)?;
    Some((
        space.to_bytes().as_slice() == bytes.as_slice(),
        read_namespace_key(&mut Input::new(&bytes)) == Ok(space),
        read_user_key(&mut Input::new(&bytes)) == Ok(user),
    ))
}

#[test]
fn keys(rt: HostRuntime) {
    let orders = (alike_compared(), rise());
    let wrong = [0xff; 33];
    let known = (
        UserKey::from_bytes(wrong).is_some(),
        NamespaceKey::from_bytes(wrong).is_some(),
    );
    let mut open = wrong;
    open[0] = 0;
    let found = (orders, known, are_followed(), keys_are_read(open));
    let orders = (
        Some((Ordering::Equal, false, true)),
        Some((true, true, true)),
    );
    let due = (
        orders,
        (false, false),
        Some((true, true)),
        Some((true, true, true)),
    );
    assert!(rt; found == due);
}

// Why no path is read from the first bytes of one that has a byte too many: that is told by the length of its last component.
fn unread(alloc: Global, count: usize) -> Option<Unread> {
    let mut bytes = Vec::new(alloc);
    bytes.push(17).ok()?;
    for _ in 0..16 {
        bytes.push(255).ok()?;
        bytes.extend_from_slice(LONG).ok()?;
    }
    bytes.push(17).ok()?;
    read_path(alloc, &mut Input::new(bytes.get(..count)?)).err()
}

#[test]
fn reading(rt: HostRuntime) {
    let alloc = rt.alloc();
    let digest = read_digest(&mut Input::new(&[7; 40]));
    let key = read_namespace_key(&mut Input::new(&[2]));
    let paths = (unread(alloc, 4097), unread(alloc, 4098));
    let due = (
        Ok(Digest([7; 32])),
        Err(Unread::Wrong),
        (Some(Unread::Part), Some(Unread::Wrong)),
    );
    assert!(rt; (digest, key, paths) == due);
}

#[test]
fn laws_can_be_called() {
    laws::limits();
    laws::one_spelling();
    laws::order_of_bytes();
    laws::order_of_paths();
    laws::prefixes();
    laws::readers();
    laws::successors();
}
