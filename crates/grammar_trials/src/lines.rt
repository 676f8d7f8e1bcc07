//! Lines and generated rows against texts and bytes made elsewhere.

ghost use Rattle.std.specs.Prelude.{◌<◌, ◌≤◌};

use crate::keys::user;
use crate::tables::spells;
use cap_codec::encode_frame;
use peer_listing::{
    DrillCounts, GENERATED_ROWS, Generator, drill_summary, generated_row, key_line, listing_head,
    listing_line,
};
use std::alloc::Global;
use willow_entry::Entry;
use willow_path::{Digest, NamespaceKey, Path};

// The lines of an entry without components,
const AT_TOP: &str =
    "005555555555555555555555555555555555555555555555555555555555555555 . 5 1024 abababababababababababababababababababababababababababababababab\n";
// with one component that has no bytes,
const AT_EMPTY_PART: &str =
    "005555555555555555555555555555555555555555555555555555555555555555 / 5 1024 abababababababababababababababababababababababababababababababab\n";
// and with two of one byte each.
const AT_TWO_PARTS: &str =
    "005555555555555555555555555555555555555555555555555555555555555555 /61/62 5 1024 abababababababababababababababababababababababababababababababab\n";

// The line of a user's key, and the head of an empty listing.
const KEY_LINE: &str = "005555555555555555555555555555555555555555555555555555555555555555\n";

const HEAD: &str =
    "namespace 004e4e4e4e4e4e4e4e4e4e4e4e4e4e4e4e4e4e4e4e4e4e4e4e4e4e4e4e4e4e4e4e rows 18446744073709551615\n";

fn namespace() -> Option<NamespaceKey> {
    let mut bytes = [0x4e; 33];
    bytes[0] = 0;
    NamespaceKey::from_bytes(bytes)
}

// An entry at the path that these bytes spell.
fn entry_at(alloc: Global, path: &[u8]) -> Option<Entry> {
    let (path, _taken) = Path::decode(alloc, path).ok()?;
    Some(Entry {
        namespace: namespace()?,
        subspace: user()?,
        path,
        timestamp: 5,
        length: 1024,
        digest: Digest([0xab; 32]),
    })
}

// Whether the entry at the path has this line.
fn lists(alloc: Global, path: &[u8], wanted: &str) -> Option<bool> {
    let entry = entry_at(alloc, path)?;
    let mut out = Vec::new(alloc);
    listing_line(&entry, &mut out).ok()?;
    Some(out.as_slice() == wanted.as_bytes())
}

// Whether the key has its line.
fn lists_key(alloc: Global) -> Option<bool> {
    let mut out = Vec::new(alloc);
    key_line(&user()?, &mut out).ok()?;
    Some(out.as_slice() == KEY_LINE.as_bytes())
}

// Whether a listing of the most rows has its head.
fn lists_head(alloc: Global) -> Option<bool> {
    let mut out = Vec::new(alloc);
    listing_head(&namespace()?, u64::MAX, &mut out).ok()?;
    Some(out.as_slice() == HEAD.as_bytes())
}

#[test]
fn lines(rt: HostRuntime) {
    let alloc = rt.alloc();
    for (path, line) in [
        (b"\x00".as_slice(), AT_TOP),
        (b"\x01\x00".as_slice(), AT_EMPTY_PART),
        (b"\x02\x01a\x01b".as_slice(), AT_TWO_PARTS),
    ] {
        assert_eq!(rt; lists(alloc, path, line), Some(true));
    }
    assert_eq!(rt; lists_key(alloc), Some(true));
    assert_eq!(rt; lists_head(alloc), Some(true));
}

// The frame of the generated row.
fn frame_of_row(alloc: Global, i: u32) -> Option<Vec<u8>>
    requires { i < GENERATED_ROWS }
{
    let row = generated_row(alloc, i).ok()?;
    let mut frame = Vec::new(alloc);
    encode_frame(&row, &mut frame).ok()?;
    Some(frame)
}

// Whether the words spell the frame of the generated row.
fn generates(alloc: Global, i: u32, words: &str) -> Option<bool>
    requires { i < GENERATED_ROWS }
{
    spells(alloc, words, &frame_of_row(alloc, i)?)
}

#[test]
fn generated_rows(rt: HostRuntime) {
    assert_eq!(rt; generates(rt.alloc(), 0, "ROW_0"), Some(true));
    assert_eq!(rt; generates(rt.alloc(), 49, "ROW_49"), Some(true));
    assert_eq!(rt; generates(rt.alloc(), 12345, "ROW_12345"), Some(true));
}

// The frames of the generated rows from one to before another, each row made alone.
fn frames_alone(alloc: Global, from: u32, to: u32) -> Option<Vec<u8>>
    requires { to ≤ GENERATED_ROWS }
{
    let mut frames = Vec::new(alloc);
    for i in from..to {
        let row = generated_row(alloc, i).ok()?;
        encode_frame(&row, &mut frames).ok()?;
    }
    Some(frames)
}

// The same, the rows made together.
fn frames_of_rows(alloc: Global, from: u32, to: u32) -> Option<Vec<u8>>
    requires order { from ≤ to }
    requires within { to ≤ GENERATED_ROWS }
{
    let generator = Generator::new(alloc).ok()?;
    let rows = generator.rows(alloc, from, to).ok()?;
    let mut frames = Vec::new(alloc);
    for row in &rows {
        encode_frame(row, &mut frames).ok()?;
    }
    Some(frames)
}

// The same, made together without the rows.
fn frames_together(alloc: Global, from: u32, to: u32) -> Option<Vec<u8>>
    requires order { from ≤ to }
    requires within { to ≤ GENERATED_ROWS }
{
    let generator = Generator::new(alloc).ok()?;
    let mut frames = Vec::new(alloc);
    generator.put_frames(alloc, from, to, &mut frames).ok()?;
    Some(frames)
}

// Whether rows made together are those made alone, and their frames too.
fn are_alike(alloc: Global, from: u32, to: u32) -> Option<bool>
    requires order { from ≤ to }
    requires within { to ≤ GENERATED_ROWS }
{
    let alone = frames_alone(alloc, from, to)?;
    let of_rows = frames_of_rows(alloc, from, to)?;
    let together = frames_together(alloc, from, to)?;
    Some(of_rows == alone && together == alone)
}

#[test]
fn generated_together(rt: HostRuntime) {
    let alloc = rt.alloc();
    assert_eq!(rt; are_alike(alloc, 0, 0), Some(true));
    assert_eq!(rt; are_alike(alloc, 49, 50), Some(true));
    assert_eq!(rt; are_alike(alloc, 0, 63), Some(true));
    assert_eq!(rt; are_alike(alloc, 64, 128), Some(true));
    assert_eq!(rt; are_alike(alloc, 0, 65), Some(true));
    assert_eq!(rt; are_alike(alloc, 12_300, 12_430), Some(true));
    assert_eq!(rt; are_alike(alloc, 65_533, 65_536), Some(true));
    assert_eq!(rt; are_alike(alloc, 65_536, 65_536), Some(true));
}

// Whether the numbers have this summary.
fn sums_up(alloc: Global, counts: DrillCounts, wanted: &str) -> Option<bool> {
    let mut out = Vec::new(alloc);
    drill_summary(&counts, &mut out).ok()?;
    Some(out.as_slice() == wanted.as_bytes())
}

#[test]
fn drills_summed_up(rt: HostRuntime) {
    let counts = DrillCounts {
        rows: 20_000,
        left: 14_051,
        right: 7_032,
        left_after: 14_051,
        right_after: 14_052,
        items: 54,
        turns: 14,
    };
    assert_eq!(rt;
        sums_up(
            rt.alloc(),
            counts,
            "rows 20000\nleft 14051\nright 7032\nleft after 14051\nright after 14052\nitems 54 turns 14\n",
        ),
        Some(true)
    );
}
