//! Images of version 1 against bytes made elsewhere.

use crate::tables::{cut_short, joined, shows};
use block_store::BlockStore;
use cap_codec::RawRow;
use peer_image::{Image, ImageRefusal, read_image_one, write_image_one, write_rows_one};
use spelling::End;
use std::alloc::Global;

// Whether the image that the words spell, written again, has the same bytes.
#[tactic(auto, using(peer_image::proofs::ReadBack::framed_rows))]
fn is_written(alloc: Global, words: &str) -> Option<bool> {
    let bytes = joined(alloc, words)?;
    let image = read_image_one(alloc, &bytes).ok()?;
    let again = write_rows_one(alloc, &image.namespace, &image.rows).ok()?;
    Some(again.as_slice() == bytes.as_slice())
}

// The image of an empty store of the namespace that another is of.
fn of_none(alloc: Global, image: &Image) -> Option<Vec<u8>> {
    let store = BlockStore::<RawRow>::new(alloc);
    let snapshot = store.snapshot().ok()?;
    write_image_one(alloc, &image.namespace, &snapshot).ok()
}

// Whether the image of an empty store has the bytes that the words spell.
fn is_of_none(alloc: Global, words: &str) -> Option<bool> {
    let bytes = joined(alloc, words)?;
    let image = read_image_one(alloc, &bytes).ok()?;
    Some(of_none(alloc, &image)?.as_slice() == bytes.as_slice())
}

const NONE: &str = "HEAD 0000000000000000";

#[test]
fn images_are_read_and_written(rt: HostRuntime) {
    for words in [
        NONE,
        "HEAD FIRST BELOW 0000000000000002",
        "HEAD ELSEWHERE BELOW 0000000000000002",
    ] {
        assert_eq!(rt; is_written(rt.alloc(), words), Some(true));
    }
}

#[test]
fn stores_without_rows(rt: HostRuntime) {
    assert_eq!(rt; is_of_none(rt.alloc(), NONE), Some(true));
}

// Why the bytes are no image.
fn refusal_of(alloc: Global, bytes: &[u8]) -> Option<ImageRefusal> {
    match read_image_one(alloc, bytes) {
        Err(End::Refused(refusal)) => Some(refusal),
        _ => None,
    }
}

// Whether the line, a number of bytes, words and a refusal, is right.
fn refuses(alloc: Global, line: &str) -> Option<bool> {
    let (bytes, due) = cut_short(alloc, line)?;
    shows(alloc, &refusal_of(alloc, &bytes)?, due)
}

const REFUSED: &str = "1000 HEAD BELOW FIRST 0000000000000002: NotRising { at: 2 }
1000 HEAD FIRST FIRST 0000000000000002: NotRising { at: 2 }
1000 HEAD FIRST ELSEWHERE 0000000000000002: NotRising { at: 2 }
1000 HEAD NEWER BELOW 0000000000000002: Pruned { at: 2, by: 1 }
1000 HEAD NEWER BETWEEN BELOW 0000000000000003: Pruned { at: 3, by: 1 }
493 HEAD NEWER BELOW 0000000000000003: BadImage { at: 485 }
494 HEAD FIRST BELOW 000000000000000200: BadImage { at: 485 }
492 HEAD FIRST BELOW 0000000000000002: BadImage { at: 485 }
485 HEAD FIRST BELOW 0000000000000002: BadImage { at: 485 }
484 HEAD FIRST BELOW 0000000000000002: BadImage { at: 260 }
37 HEAD FIRST BELOW 0000000000000002: BadImage { at: 37 }
36 HEAD FIRST BELOW 0000000000000002: BadImage { at: 0 }
460 57494d32 FIRST BELOW 0000000000000002: BadImage { at: 0 }";

#[test]
fn bytes_that_are_no_image(rt: HostRuntime) {
    for line in REFUSED.lines() {
        assert_eq!(rt; refuses(rt.alloc(), line), Some(true), "{line}");
    }
}
