//! What areas and boxes include, how boxes are cut, and how areas are spelled and read.

use crate::names::{Parts, is_spelled, key_of, path_of};
use spelling::{Input, NotHere, Unread};
use std::alloc::Global;
use std::test::*;
use willow_area::{Area, Box3, CutAt, CutOutside, TimeRange, box_of, laws, read_area};
use willow_path::{End, Path, UserKey};

// The area of any subspace, or one, of a path and of a range of times.
fn area_of(subspace: Option<UserKey>, path: Path, start: u64, end: Option<u64>) -> Option<Area> {
    let times = TimeRange::new(start, end)?;
    Some(Area {
        subspace,
        path,
        times,
    })
}

const TIMES: &[(u64, Option<u64>, bool)] = &[
    (0, None, true),
    (u64::MAX, None, true),
    (5, Some(6), true),
    (5, Some(5), false),
    (6, Some(5), false),
];

#[test]
fn ranges_of_times(rt: HostRuntime) {
    for (start, end, fits) in TIMES {
        assert!(rt; TimeRange::new(*start, *end).is_some() == *fits);
    }
}

// Whether a time is in a range with an end.
fn is_in_range(time: u64) -> Option<bool> {
    Some(TimeRange::new(5, Some(7))?.includes(time))
}

#[test]
fn times_in_a_range(rt: HostRuntime) {
    let found = [
        is_in_range(4),
        is_in_range(5),
        is_in_range(6),
        is_in_range(7),
    ];
    assert!(rt; found == [Some(false), Some(true), Some(true), Some(false)]);
}

// The areas of the tables below.
#[derive(Clone, Copy)]
enum Sample {
    Full,
    Early,
    Deep,
    Late,
    EarlyDeep,
}

// The area of this name, where it can be made.
fn area_named(alloc: Global, name: Sample) -> Option<Area> {
    let user = key_of(0, 7)?;
    match name {
        Sample::Full => Some(Area::full(alloc)),
        Sample::Early => area_of(Some(user), path_of(alloc, &[b"a"])?, 0, Some(10)),
        Sample::Deep => area_of(None, path_of(alloc, &[b"a", b"b"])?, 5, None),
        Sample::Late => area_of(None, path_of(alloc, &[b"a"])?, 10, Some(20)),
        Sample::EarlyDeep => area_of(Some(user), path_of(alloc, &[b"a", b"b"])?, 5, Some(10)),
    }
}

// Whether two areas meet in the third.
fn meet(one: Option<&Area>, two: Option<&Area>, both: Option<&Area>) -> Option<bool> {
    Some(one?.intersect(two?).ok()?.as_ref() == Some(both?))
}

// The same of areas by name.
fn meet_in(alloc: Global, (one, two, both): &(Sample, Sample, Sample)) -> Option<bool> {
    meet(
        area_named(alloc, *one).as_ref(),
        area_named(alloc, *two).as_ref(),
        area_named(alloc, *both).as_ref(),
    )
}

const MEETINGS: &[(Sample, Sample, Sample)] = &[
    (Sample::Early, Sample::Deep, Sample::EarlyDeep),
    (Sample::Full, Sample::Late, Sample::Late),
];

#[test]
fn areas_meet(rt: HostRuntime) {
    let alloc = rt.alloc();
    for names in MEETINGS {
        assert!(rt; meet_in(alloc, names) == Some(true));
    }
}

// Whether two areas do not meet.
fn are_apart(one: Option<&Area>, two: Option<&Area>) -> Option<bool> {
    Some(one?.intersect(two?).ok()?.is_none())
}

// Whether these do not.
fn early_and_late_are_apart(alloc: Global) -> Option<bool> {
    are_apart(
        area_named(alloc, Sample::Early).as_ref(),
        area_named(alloc, Sample::Late).as_ref(),
    )
}

#[test]
fn areas_do_not_meet(rt: HostRuntime) {
    assert!(rt; early_and_late_are_apart(rt.alloc()) == Some(true));
}

// Whether the first of two areas includes the second.
fn includes(outer: Option<&Area>, inner: Option<&Area>) -> Option<bool> {
    Some(outer?.includes_area(inner?))
}

// The same of areas by name.
fn lies_within(alloc: Global, outer: Sample, inner: Sample) -> Option<bool> {
    includes(
        area_named(alloc, outer).as_ref(),
        area_named(alloc, inner).as_ref(),
    )
}

const WITHIN: &[(Sample, Sample, bool)] = &[
    (Sample::Full, Sample::Early, true),
    (Sample::Early, Sample::Full, false),
    (Sample::Early, Sample::EarlyDeep, true),
    (Sample::EarlyDeep, Sample::Early, false),
    (Sample::Early, Sample::Deep, false),
];

#[test]
fn areas_lie_within(rt: HostRuntime) {
    let alloc = rt.alloc();
    for (outer, inner, due) in WITHIN {
        assert!(rt; lies_within(alloc, *outer, *inner) == Some(*due));
    }
}

// Whether an area includes this place.
fn has(area: Option<&Area>, key: Option<UserKey>, path: Option<&Path>, time: u64) -> Option<bool> {
    Some(area?.includes(&key?, path?, time))
}

// Whether the area of one user, two components and times includes a place.
fn early_deep_has(alloc: Global, kind: u8, parts: &[&[u8]], time: u64) -> Option<bool> {
    has(
        area_named(alloc, Sample::EarlyDeep).as_ref(),
        key_of(kind, 7),
        path_of(alloc, parts).as_ref(),
        time,
    )
}

const PLACES: &[(u8, Parts, u64, bool)] = &[
    (0, &[b"a", b"b"], 9, true),
    (0, &[b"a", b"b"], 10, false),
    (0, &[b"a"], 9, false),
    (1, &[b"a", b"b"], 9, false),
];

#[test]
fn areas_include_places(rt: HostRuntime) {
    let alloc = rt.alloc();
    for (kind, parts, time, due) in PLACES {
        assert!(rt; early_deep_has(alloc, *kind, parts, *time) == Some(*due));
    }
}

// The box of an area.
fn box_at(alloc: Global, area: Option<&Area>) -> Option<Box3> {
    box_of(alloc, area?).ok()
}

// The box of the last user of this kind.
fn last_box(alloc: Global, kind: u8) -> Option<Box3> {
    let area = area_of(Some(key_of(kind, 0xff)?), Path::empty(alloc), 0, None);
    box_at(alloc, area.as_ref())
}

// Whether its keys end at this key, where it is given.
fn ends_at(alloc: Global, kind: u8, end: Option<UserKey>) -> bool {
    match &last_box(alloc, kind) {
        Some(b) => b.key_end() == end.as_ref(),
        None => false,
    }
}

#[test]
fn boxes_of_areas(rt: HostRuntime) {
    let found = [
        ends_at(rt.alloc(), 1, None),
        ends_at(rt.alloc(), 0, key_of(1, 0)),
    ];
    assert!(rt; found == [true; 2]);
}

// The box of one user's area, its paths unbounded and its times below 10.
fn whole_box(alloc: Global) -> Option<Box3> {
    let area = area_of(key_of(0, 7), Path::empty(alloc), 0, Some(10));
    box_at(alloc, area.as_ref())
}

// The halves of a box, cut there.
fn cut(whole: Option<&Box3>, at: &CutAt) -> Option<(Box3, Box3)> {
    whole?.cut(at).ok()
}

// The halves of that box, cut at a path of one component.
fn path_halves(alloc: Global) -> Option<(Box3, Box3)> {
    let at = CutAt::Path(path_of(alloc, &[b"\x14"])?);
    cut(whole_box(alloc).as_ref(), &at)
}

// Whether each of two halves includes a path of the user.
fn include(
    halves: Option<&(Box3, Box3)>,
    user: Option<UserKey>,
    path: Option<&Path>,
) -> Option<(bool, bool)> {
    let ((lower, upper), user, path) = (halves?, user?, path?);
    Some((
        lower.includes(&user, path, 9),
        upper.includes(&user, path, 9),
    ))
}

// Whether those halves include this path.
fn halves_include(alloc: Global, parts: &[&[u8]]) -> Option<(bool, bool)> {
    include(
        path_halves(alloc).as_ref(),
        key_of(0, 7),
        path_of(alloc, parts).as_ref(),
    )
}

// The ends and starts of the times of that box's halves, cut at this time.
fn halves_times(alloc: Global, at: u64) -> Option<(Option<u64>, u64)> {
    let (lower, upper) = &cut(whole_box(alloc).as_ref(), &CutAt::Time(at))?;
    Some((lower.times().end(), upper.times().start()))
}

const HALVES: &[(Parts, bool)] = &[
    (&[b"\x13\xff", b"x"], true),
    (&[b"\x14"], false),
    (&[b"\x14", b"x"], false),
];

#[test]
fn boxes_are_cut_at_paths(rt: HostRuntime) {
    let alloc = rt.alloc();
    for (parts, is_below) in HALVES {
        assert!(rt; halves_include(alloc, parts) == Some((*is_below, !*is_below)));
    }
}

#[test]
fn boxes_are_cut_at_times(rt: HostRuntime) {
    assert!(rt; halves_times(rt.alloc(), 4) == Some((Some(4), 4)));
}

// Whether a box cannot be cut there.
fn is_refused(whole: Option<&Box3>, at: &CutAt) -> bool {
    match whole {
        Some(whole) => whole.cut(at).err() == Some(End::Refused(CutOutside)),
        None => false,
    }
}

// Whether that box cannot.
fn is_outside(alloc: Global, at: &CutAt) -> bool {
    is_refused(whole_box(alloc).as_ref(), at)
}

// Whether it cannot be cut at its user.
fn start_is_outside(alloc: Global) -> Option<bool> {
    Some(is_outside(alloc, &CutAt::Subspace(key_of(0, 7)?)))
}

#[test]
fn boxes_are_not_cut_outside(rt: HostRuntime) {
    let alloc = rt.alloc();
    let user = start_is_outside(alloc);
    let path = is_outside(alloc, &CutAt::Path(Path::empty(alloc)));
    let first = is_outside(alloc, &CutAt::Time(0));
    let end = is_outside(alloc, &CutAt::Time(10));
    assert!(rt; (user, path, first, end) == (Some(true), true, true, true));
}

// Whether the paths of a box start at the path of these components.
fn starts_at_path(alloc: Global, b: &Box3, parts: &[&[u8]]) -> Option<bool> {
    Some(*b.path_start() == path_of(alloc, parts)?)
}

// Whether they end at that of those, where they are given.
fn ends_at_path(alloc: Global, b: &Box3, parts: Option<Parts>) -> Option<bool> {
    match parts {
        None => Some(b.path_end().is_none()),
        Some(parts) => Some(*b.path_end()? == path_of(alloc, parts)?),
    }
}

// Whether the keys of a box start at this one and end at that one, where it is given.
fn has_keys(b: &Box3, start: Option<UserKey>, end: Option<&UserKey>) -> bool {
    Some(b.key_start()) == start.as_ref() && b.key_end() == end
}

// The least key above that of kind 0 whose body is 32 times the byte 07.
fn key_after() -> Option<UserKey> {
    let mut bytes = [7; 33];
    bytes[0] = 0;
    bytes[32] = 8;
    UserKey::from_bytes(bytes)
}

// The box of one user's area at a path.
fn user_box(alloc: Global, parts: &[&[u8]]) -> Option<Box3> {
    let area = area_of(key_of(0, 7), path_of(alloc, parts)?, 3, Some(10));
    box_at(alloc, area.as_ref())
}

// A copy of a box.
fn copied(b: Option<&Box3>) -> Option<Box3> {
    b?.copy().ok()
}

// Whether a box tells that user's keys, this path, this end and its times.
fn tells(alloc: Global, b: &Box3, parts: &[&[u8]], end: Option<Parts>) -> Option<[bool; 4]> {
    Some([
        has_keys(b, key_of(0, 7), key_after().as_ref()),
        *b.times() == TimeRange::new(3, Some(10))?,
        starts_at_path(alloc, b, parts)?,
        ends_at_path(alloc, b, end)?,
    ])
}

// Whether a copy of that user's box does.
fn copy_tells(alloc: Global, parts: &[&[u8]], end: Option<Parts>) -> bool {
    match &copied(user_box(alloc, parts).as_ref()) {
        Some(copy) => tells(alloc, copy, parts, end) == Some([true; 4]),
        None => false,
    }
}

const COPIES: &[(Parts, Option<Parts>)] = &[
    (&[], None),
    (&[b"a"], Some(&[b"a\0"])),
    (&[b"a", b"b"], Some(&[b"a", b"b\0"])),
];

#[test]
fn boxes_tell_their_ranges(rt: HostRuntime) {
    let alloc = rt.alloc();
    for (parts, end) in COPIES {
        assert!(rt; copy_tells(alloc, parts, *end));
    }
}

// The box of everything, cut at a key.
fn cut_at_key(alloc: Global, key: UserKey) -> Option<(Box3, Box3)> {
    let whole = box_at(alloc, Some(&Area::full(alloc)));
    cut(whole.as_ref(), &CutAt::Subspace(key))
}

// Whether a box has every path from the empty one on.
fn has_every_path(b: &Box3) -> bool {
    b.path_start().count() == 0 && b.path_end().is_none()
}

// Whether two halves have the keys below and those from this one on, and whether each has every path.
fn are_cut_at(lower: &Box3, upper: &Box3, key: UserKey) -> [bool; 4] {
    [
        has_keys(lower, key_of(0, 0), Some(&key)),
        has_keys(upper, Some(key), None),
        has_every_path(lower),
        has_every_path(upper),
    ]
}

// The same of the halves of that box; None where it is not cut.
fn is_cut_at_key(alloc: Global, kind: u8, byte: u8) -> Option<[bool; 4]> {
    let key = key_of(kind, byte)?;
    let (lower, upper) = &cut_at_key(alloc, key)?;
    Some(are_cut_at(lower, upper, key))
}

const KEYS: &[(u8, u8)] = &[(0, 1), (0, 7), (1, 0xff)];

#[test]
fn boxes_are_cut_at_keys(rt: HostRuntime) {
    let alloc = rt.alloc();
    for (kind, byte) in KEYS {
        assert!(rt; is_cut_at_key(alloc, *kind, *byte) == Some([true; 4]));
    }
}

#[test]
fn no_box_is_cut_at_the_least_key(rt: HostRuntime) {
    assert!(rt; key_of(0, 0).is_some() && is_cut_at_key(rt.alloc(), 0, 0).is_none());
}

#[test]
fn laws_can_be_called() {
    laws::boxes();
    laws::cuts();
    laws::inclusion();
    laws::intersection();
    laws::one_spelling();
    laws::readers();
}

// The area of one user, one component and times with an end.
fn spelled_area(alloc: Global) -> Option<Area> {
    area_of(key_of(1, 9), path_of(alloc, &[b"a"])?, 5, Some(258))
}

const SPELLED: Parts = &[
    b"\0\0\0\0\0\0\0\0\0\0\0\x01\x01\t\t\t\t\t\t\t\t\t\t\t\t\t\t\t\t",
    b"\t\t\t\t\t\t\t\t\t\t\t\t\t\t\t\t\x01\x01a\0\0\0\0\0\0\0\x05\x01\0\0\0\0\0\0\x01\x02",
];

// Whether the area of everything and that area are spelled so.
fn are_spelled(alloc: Global) -> Option<bool> {
    let mut text = Vec::new(alloc);
    Area::full(alloc).encode(&mut text).ok()?;
    spelled_area(alloc)?.encode(&mut text).ok()?;
    is_spelled(alloc, &text, SPELLED)
}

#[test]
fn areas_are_spelled(rt: HostRuntime) {
    assert!(rt; are_spelled(rt.alloc()) == Some(true));
}

// Whether that area is read in front of a byte 07.
fn is_read(alloc: Global) -> Option<bool> {
    let area = spelled_area(alloc)?;
    let mut text = Vec::new(alloc);
    area.encode(&mut text).ok()?;
    text.push(7).ok()?;
    Some(Area::decode(alloc, &text) == Ok((area, 54)))
}

#[test]
fn areas_are_read(rt: HostRuntime) {
    assert!(rt; is_read(rt.alloc()) == Some(true));
}

const JUDGED: &[(&[u8], Unread)] = &[
    (b"", Unread::Part),
    (b"\x02", Unread::Wrong),
    (b"\x01\x02", Unread::Wrong),
    (b"\0\0\0\0\0\0\0\0\0\x05\x02", Unread::Wrong),
    (b"\0\0\0\0\0\0\0\0\0\x05\x01\0\0\0\0\0\0\0", Unread::Part),
    (
        b"\0\0\0\0\0\0\0\0\0\x05\x01\0\0\0\0\0\0\0\x05",
        Unread::Wrong,
    ),
    (b"\0\0\xff\xff\xff\xff\xff\xff\xff\xff", Unread::Part),
    (b"\0\0\xff\xff\xff\xff\xff\xff\xff\xff\x01", Unread::Wrong),
    (b"\0\0\x01\0\0\0\0\0\0\0\x01\0", Unread::Wrong),
];

#[test]
fn areas_are_judged_early(rt: HostRuntime) {
    let alloc = rt.alloc();
    for (bytes, why) in JUDGED {
        let read = read_area(alloc, &mut Input::new(bytes)).err();
        let decoded = Area::decode(alloc, bytes).err();
        assert!(rt; (read, decoded) == (Some(*why), Some(End::Refused(NotHere))));
    }
}
