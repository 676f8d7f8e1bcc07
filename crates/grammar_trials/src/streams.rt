//! Streams in two pieces, cut at every place, with offsets and rows told by hand.

ghost use Rattle.std.specs.Prelude.{◌≡◌, ◌≤◌, Some, length};

use row_stream::{RowStream, StreamRefusal, laws};
use spelling::End;
use std::alloc::{AllocError, Global};
use willow_entry::{BareRow, BareRows, Row};

// Appends the frame of a row at the empty path with this time and no token: 119 bytes.
fn put_frame(out: &mut Vec<u8>, time: u8) -> Result<(), AllocError> {
    out.extend_from_slice(&[0, 0, 0, 115, 0])?;
    out.extend_from_slice(&[0x4e; 32])?;
    out.extend_from_slice(&[0])?;
    out.extend_from_slice(&[0x55; 32])?;
    out.extend_from_slice(&[0, 0, 0, 0, 0, 0, 0, 0, time])?;
    out.extend_from_slice(&[0, 0, 0, 0, 0, 0, 0, 1])?;
    out.extend_from_slice(&[0x11; 32])
}

// Two frames, at times 5 and 6, and these bytes behind them.
fn two_and(alloc: Global, behind: &[u8]) -> Result<Vec<u8>, AllocError> {
    let mut bytes = Vec::new(alloc);
    put_frame(&mut bytes, 5)?;
    put_frame(&mut bytes, 6)?;
    bytes.extend_from_slice(behind)?;
    Ok(bytes)
}

// The times of the rows as digits, behind those of earlier ones.
fn digits(earlier: u64, rows: &[BareRow]) -> u64 {
    let mut digits = earlier;
    for row in rows {
        digits = digits
            .saturating_mul(10)
            .saturating_add(row.entry().timestamp);
    }
    digits
}

// The refusal, where the stream answers it to a further piece and at its end too.
fn settled(stream: &mut RowStream<BareRows>, refusal: StreamRefusal) -> Option<StreamRefusal>
    requires { stream.old.refusal ≡ Some refusal }
{
    let again = match stream.feed(&[0, 0, 0]) {
        Err(End::Refused(again)) => again,
        _ => return None,
    };
    match stream.finish() {
        Err(late) if late == refusal && again == refusal => Some(refusal),
        _ => None,
    }
}

// What comes of the bytes in two pieces: the times of the rows handed out, and how the stream ends.
fn cut_at(
    alloc: Global,
    bytes: &[u8],
    place: usize,
) -> Result<(u64, Option<StreamRefusal>), End<()>>
    requires { place ≤ length bytes.now }
{
    let (front, back) = bytes.split_at(place);
    let mut stream = RowStream::<BareRows>::new(alloc);
    let first = match stream.feed(front) {
        Ok(rows) => digits(0, &rows),
        Err(End::Refused(refusal)) => return Ok((0, settled(&mut stream, refusal))),
        Err(End::NoMemory) => return Err(End::NoMemory),
    };
    match stream.feed(back) {
        Ok(rows) => Ok((digits(first, &rows), stream.finish().err())),
        Err(End::Refused(refusal)) => Ok((first, settled(&mut stream, refusal))),
        Err(End::NoMemory) => Err(End::NoMemory),
    }
}

// Whether the two frames, cut at the place, are both read, and the stream ends well behind them.
fn is_whole(alloc: Global, bytes: &[u8], place: usize) -> Option<bool>
    requires { place ≤ length bytes.now }
{
    Some(cut_at(alloc, bytes, place).ok()? == (56, None))
}

// Whether the two frames are read wherever their bytes are cut in two.
fn are_whole(alloc: Global) -> Option<bool> {
    let bytes = two_and(alloc, &[]).ok()?;
    for place in 0..bytes.len() {
        if !is_whole(alloc, &bytes, place)? {
            return Some(false);
        }
    }
    Some(bytes.len() == 238)
}

#[test]
fn two_frames_in_two_pieces(rt: HostRuntime) {
    assert_eq!(rt; are_whole(rt.alloc()), Some(true));
}

// Whether the stream ends so wherever its bytes are cut in two.
fn ends_so(alloc: Global, behind: &[u8], due: Option<StreamRefusal>) -> Option<bool> {
    let bytes = two_and(alloc, behind).ok()?;
    for place in 0..bytes.len() {
        let (_, end) = cut_at(alloc, &bytes, place).ok()?;
        if end != due {
            return Some(false);
        }
    }
    Some(true)
}

#[test]
fn ends_behind_two_frames(rt: HostRuntime) {
    let bad = Some(StreamRefusal::BadFrame { at: 238 });
    let long = Some(StreamRefusal::FrameTooLong { at: 238 });
    let cut = Some(StreamRefusal::CutShort { at: 238 });
    for (behind, due) in [
        // Fewer than four bytes of a length are not judged, whatever they are.
        ([0].as_slice(), cut),
        ([255, 255, 255].as_slice(), cut),
        // The greatest length, and one more.
        ([0, 2, 0, 0].as_slice(), cut),
        ([0, 2, 0, 1].as_slice(), long),
        ([255, 255, 255, 255].as_slice(), long),
        // A body of no byte, one that is no row, and such a one that is not whole.
        ([0, 0, 0, 0].as_slice(), bad),
        ([0, 0, 0, 3, 0xaa, 0xbb, 0xcc].as_slice(), bad),
        ([0, 0, 0, 3, 0xaa, 0xbb].as_slice(), cut),
        // The first that goes wrong is told.
        ([0, 0, 0, 0, 0, 2, 0, 1].as_slice(), bad),
        ([0, 2, 0, 1, 0, 0, 0, 0].as_slice(), long),
        ([].as_slice(), None),
    ] {
        assert_eq!(rt; ends_so(rt.alloc(), behind, due), Some(true));
    }
}

// The times of the rows handed out where a body of no byte stands behind two frames, and the stream is cut at the place.
fn before_wrong(alloc: Global, place: usize) -> Option<(u64, Option<StreamRefusal>)> {
    let bytes = two_and(alloc, &[0, 0, 0, 0]).ok()?;
    if place > bytes.len() {
        return None;
    }
    cut_at(alloc, &bytes, place).ok()
}

// The rows of a piece that goes wrong are not handed out, those of the pieces before are.
#[test]
fn rows_before_a_wrong_frame(rt: HostRuntime) {
    let bad = Some(StreamRefusal::BadFrame { at: 238 });
    for (place, digits) in [(0, 0), (118, 0), (119, 5), (237, 5), (238, 56), (241, 56)] {
        assert_eq!(rt; before_wrong(rt.alloc(), place), Some((digits, bad)));
    }
}

#[test]
fn the_laws_can_be_called() {
    laws::any_cutting::<BareRows>();
    laws::one_reading::<BareRows>();
    laws::pieces_do_not_matter::<BareRows>();
}
