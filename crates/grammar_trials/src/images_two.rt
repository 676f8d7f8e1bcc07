//! Images of version 2, against bytes made elsewhere, and beside images of version 1.

ghost use Rattle.std.specs.Prelude.{map};
ghost use Rattle.std.specs.List.{AllByRecursion};
ghost use Rattle.willow_entry.specs.Frame.{HasFrame};
ghost use Rattle.cap_codec.specs.Rows.{row_of};

use crate::tables::{cut_short, joined, shows};
use block_store::BlockStore;
use cap_codec::{MAX_FRAME, RawRow};
use peer_image::{
    Image, ImageRefusal, put_capability, put_head_two, put_row_two, put_trailer, read_image,
    read_image_one, write_image,
};
use spelling::End;
use std::alloc::Global;
use willow_entry::same;

// The number of bytes of an image of version 2, the image, and the image of version 1 of the same rows.
const TOLD: &str = "49 HEAD_2 00000000 00000000 00000000: HEAD 00000000 00000000
280 HEAD_2 00000001 CAPABILITY FIRST_2 00000000 00000001: HEAD FIRST 00000000 00000001
441 HEAD_2 00000001 CAPABILITY FIRST_2 BELOW_2 00000000 00000002: HEAD FIRST BELOW 00000000 00000002";

// Whether both images tell one namespace and the same rows.
fn tells(alloc: Global, line: &str) -> Option<bool> {
    let (bytes, old) = cut_short(alloc, line)?;
    let image = read_image(alloc, &bytes).ok()?;
    let other = read_image(alloc, &joined(alloc, old)?).ok()?;
    Some(image.namespace == other.namespace && are_same(&image.rows, &other.rows))
}

// Whether the rows are the same.
fn are_same(rows: &[RawRow], others: &[RawRow]) -> bool {
    rows.len() == others.len() && rows.iter().zip(others).all(|(r, s)| same(r, s))
}

#[test]
fn images_of_both_versions_are_read(rt: HostRuntime) {
    for line in TOLD.lines() {
        assert_eq!(rt; tells(rt.alloc(), line), Some(true), "{line}");
    }
}

// What is read of the image of version 1 is written in version 2: the head, the capability of its rows, the rows, the end.
#[tactic(auto, using(peer_image::proofs::ReadBack::framed_rows))]
fn told_once(alloc: Global, words: &str) -> Option<Vec<u8>> {
    let image = read_image_one(alloc, &joined(alloc, words)?).ok()?;
    let mut bytes = Vec::new(alloc);
    add_told(&mut bytes, &image)?;
    add_rows(&mut bytes, &image.rows)?;
    let count = u32::try_from(image.rows.len()).ok()?;
    put_trailer(&mut bytes, count).ok()?;
    Some(bytes)
}

// Adds the head of an image whose rows have one capability, and the capability.
fn add_told(bytes: &mut Vec<u8>, image: &Image) -> Option<()> {
    match image.rows.as_slice() {
        [] => put_head_two(bytes, &image.namespace, 0).ok(),
        [row, ..] => {
            put_head_two(bytes, &image.namespace, 1).ok()?;
            add_capability(bytes, row.capability_bytes())
        }
    }
}

// Adds a capability that a frame may carry.
fn add_capability(bytes: &mut Vec<u8>, told: &[u8]) -> Option<()> {
    if told.len() > MAX_FRAME {
        return None;
    }
    put_capability(bytes, told).ok()
}

// Adds rows whose capability is that of number 0.
fn add_rows(bytes: &mut Vec<u8>, rows: &[RawRow]) -> Option<()>
    requires { AllByRecursion HasFrame (map row_of rows.now) }
{
    match rows {
        [] => Some(()),
        [row, others @ ..] => {
            put_row_two(bytes, row, 0).ok()?;
            add_rows(bytes, others)
        }
    }
}

// Whether the image of version 1 is written so in version 2.
fn is_told(alloc: Global, line: &str) -> Option<bool> {
    let (bytes, old) = cut_short(alloc, line)?;
    Some(told_once(alloc, old)?.as_slice() == bytes.as_slice())
}

#[test]
fn images_of_version_2_are_written(rt: HostRuntime) {
    for line in TOLD.lines() {
        assert_eq!(rt; is_told(rt.alloc(), line), Some(true), "{line}");
    }
}

// Whether the image of an empty store has the bytes of an image without rows.
fn is_of_none(alloc: Global) -> Option<bool> {
    let bytes = joined(alloc, "HEAD_2 00000000 00000000 00000000")?;
    let image = read_image(alloc, &bytes).ok()?;
    let store = BlockStore::<RawRow>::new(alloc);
    let snapshot = store.snapshot().ok()?;
    let again = write_image(alloc, &image.namespace, &snapshot).ok()?;
    Some(again.as_slice() == bytes.as_slice())
}

#[test]
fn a_store_without_rows(rt: HostRuntime) {
    assert_eq!(rt; is_of_none(rt.alloc()), Some(true));
}

// Why the bytes are no image.
fn refusal_of(alloc: Global, bytes: &[u8]) -> Option<ImageRefusal> {
    match read_image(alloc, bytes) {
        Err(End::Refused(refusal)) => Some(refusal),
        _ => None,
    }
}

// Whether the line, a number of bytes, words and a refusal, is right.
fn refuses(alloc: Global, line: &str) -> Option<bool> {
    let (bytes, due) = cut_short(alloc, line)?;
    shows(alloc, &refusal_of(alloc, &bytes)?, due)
}

// Cut short, with a further byte, with a wrong count; a capability that no row tells, one that does not rise, one too few;
// rows that tell none, that do not rise; other first bytes, and version 1.
const REFUSED: &str =
    "40 HEAD_2 00000001 CAPABILITY FIRST_2 BELOW_2 00000000 00000002: BadImage { at: 0 }
41 HEAD_2 00000001 CAPABILITY FIRST_2 BELOW_2 00000000 00000002: BadImage { at: 41 }
112 HEAD_2 00000001 CAPABILITY FIRST_2 BELOW_2 00000000 00000002: BadImage { at: 41 }
113 HEAD_2 00000001 CAPABILITY FIRST_2 BELOW_2 00000000 00000002: BadImage { at: 113 }
432 HEAD_2 00000001 CAPABILITY FIRST_2 BELOW_2 00000000 00000002: BadImage { at: 272 }
48 HEAD_2 00000000 00000000 00000000: BadImage { at: 41 }
390 HEAD_2 00000001 HANDED_ON FIRST_2 00000000 00000001: BadImage { at: 383 }
440 HEAD_2 00000001 CAPABILITY FIRST_2 BELOW_2 00000000 00000002: BadImage { at: 433 }
442 HEAD_2 00000001 CAPABILITY FIRST_2 BELOW_2 00000000 00000002 00: BadImage { at: 433 }
441 HEAD_2 00000001 CAPABILITY FIRST_2 BELOW_2 00000000 00000003: BadImage { at: 433 }
700 HEAD_2 00000002 CAPABILITY HANDED_ON FIRST_2 BELOW_2 00000000 00000002: BadImage { at: 616 }
700 HEAD_2 00000002 HANDED_ON CAPABILITY FIRST_2 BELOW_2 00000000 00000002: BadImage { at: 224 }
700 HEAD_2 00000002 CAPABILITY CAPABILITY FIRST_2 BELOW_2 00000000 00000002: BadImage { at: 113 }
700 HEAD_2 00000002 CAPABILITY FIRST_2 BELOW_2 00000000 00000002: BadImage { at: 113 }
700 HEAD_2 00000000 FIRST_2 BELOW_2 00000000 00000002: BadImage { at: 41 }
700 HEAD_2 00000001 CAPABILITY BELOW_2 FIRST_2 00000000 00000002: NotRising { at: 2 }
700 57494d33 KEY_4E 00000000 00000000 00000000: BadImage { at: 0 }
492 HEAD FIRST BELOW 00000000 00000002: BadImage { at: 485 }";

#[test]
fn bytes_that_are_no_image_of_version_2(rt: HostRuntime) {
    for line in REFUSED.lines() {
        assert_eq!(rt; refuses(rt.alloc(), line), Some(true), "{line}");
    }
}
