//! Images of version 2 as they are read.

ghost use Rattle.std.specs.Prelude.{◌≡◌, ◌<◌, ◌≤◌, ◌^◌, ◌++◌, [], true, length, IfOk, IsErrOf, MatchBool, OnErr};
ghost use Rattle.std.specs.List.{list_all};
ghost use Rattle.spelling.specs.declared.ending.End.TheVariants as ends;
ghost use Rattle.willow_entry.specs.Frame.{FrameAsks};
ghost use Rattle.peer_image.specs.Image.{trailer};
ghost use Rattle.peer_image.specs.ImageOneReading.{raw_rows};
ghost use Rattle.peer_image.specs.ImageTwoParts.{AreMarked, GoesBadAt, HasMarkedSome, IsPartTwo, ReadsRow};
ghost use Rattle.peer_image.specs.ImageTwoReading.{AreToldInFront, FirstIsWhole, ImageTwoAsks, IsImageHead, ReadsImageTwo, ReadsRowsTwo, head_two_spelling};
ghost use Rattle.peer_image.specs.Order.{IsInnerRising};

use crate::known::{ImageHead, KnownCapability, capabilities_in_front, image_two_head};
use crate::order::order_refusal;
use crate::read::{Image, is_trailer};
use crate::refusal::ImageRefusal;
use cap_codec::{RawRow, behind, decode_numbered_frame};
use spelling::{End, NoMemory, NotHere};
use std::alloc::Global;
use willow_path::NamespaceKey;

/// The rows of the image of version 2 that the bytes are: the text WIM2, a namespace key, the number of the capabilities in
/// four bytes, the capabilities, the rows, four bytes 00, the number of rows in four bytes, and nothing else. Each
/// capability and each row has its length in four bytes, at most `MAX_FRAME`, before it. The capabilities rise strictly by
/// their bytes, and each is told by a row. A row is an entry, the number of its capability in four bytes, counted from 0,
/// and a signature field. The order of the rows, and which refusal goes first, are as in `read_image_one`. Memory is asked for
/// behind the head, where the first length is above zero and so many bytes are there.
pub fn read_image_two(alloc: Global, bytes: &[u8]) -> Result<Image, End<ImageRefusal>>
    ensures image { ReadsImageTwo bytes.now result }
    ensures asked { IsErrOf result ends.NoMemory → ImageTwoAsks bytes.now }
{
    match read_rows_two(alloc, bytes) {
        Ok(image) => in_order_two(alloc, bytes, image),
        Err(end) => Err(end),
    }
}

// The image, where its rows are in order.
fn in_order_two(alloc: Global, bytes: &[u8], image: Image) -> Result<Image, End<ImageRefusal>>
    requires { ReadsRowsTwo bytes.now (Ok image) }
    ensures image { ReadsImageTwo bytes.now result }
    ensures some { IsErrOf result ends.NoMemory → 0 < length image.rows.items }
    ensures rising { IsErrOf result ends.NoMemory → IsInnerRising (raw_rows image.rows.items) }
{
    match order_refusal(alloc, &image.rows) {
        Ok(None) => Ok(image),
        Ok(Some(refusal)) => Err(End::Refused(refusal)),
        Err(NoMemory) => Err(End::NoMemory),
    }
}

// The rows of the image that the bytes are, in any order.
fn read_rows_two(alloc: Global, bytes: &[u8]) -> Result<Image, End<ImageRefusal>>
    ensures rows { ReadsRowsTwo bytes.now result }
    ensures asked { IsErrOf result ends.NoMemory → ImageTwoAsks bytes.now }
{
    match image_two_head(bytes) {
        Some((head, behind)) => read_behind_head(alloc, bytes, head, behind),
        None => Err(End::Refused(ImageRefusal::BadImage { at: 0 })),
    }
}

// The rows of the image whose head stands in front of the bytes behind it.
fn read_behind_head(
    alloc: Global,
    bytes: &[u8],
    head: ImageHead,
    behind: &[u8],
) -> Result<Image, End<ImageRefusal>>
    requires head { IsImageHead head }
    requires behind { bytes.now ≡ head_two_spelling head ++ behind.now }
    ensures rows { ReadsRowsTwo bytes.now result }
    ensures asked { IsErrOf result ends.NoMemory → FirstIsWhole behind.now }
{
    let (told, middle) = match capabilities_in_front(alloc, behind, head.count) {
        Ok(read) => read,
        Err(NoMemory) => return Err(End::NoMemory),
    };
    if told.len() < head.count as usize {
        return Err(bad_at(bytes, middle));
    }
    read_behind_told(alloc, bytes, behind, head, &told, middle)
}

// The rows of the image, behind all its capabilities.
fn read_behind_told(
    alloc: Global,
    bytes: &[u8],
    behind: &[u8],
    head: ImageHead,
    told: &[KnownCapability],
    middle: &[u8],
) -> Result<Image, End<ImageRefusal>>
    requires head { IsImageHead head }
    requires behind { bytes.now ≡ head_two_spelling head ++ behind.now }
    requires told { AreToldInFront behind.now head.count told.now middle.now }
    requires all { length told.now ≡ head.count }
    ensures rows { ReadsRowsTwo bytes.now result }
    ensures asked { IsErrOf result ends.NoMemory → FirstIsWhole behind.now }
{
    let mut marks = match no_marks(alloc, told) {
        Ok(marks) => marks,
        Err(NoMemory) => return Err(End::NoMemory),
    };
    // Each row takes bytes, so that there are fewer.
    let most = middle.len() + 1;
    let (rows, left) = match rows_among(alloc, told, &mut marks, middle, most) {
        Ok(read) => read,
        Err(NoMemory) => return Err(End::NoMemory),
    };
    if is_end_two(left, rows.len(), &marks) {
        Ok(Image {
            namespace: head.namespace,
            rows,
        })
    } else {
        Err(bad_at(bytes, left))
    }
}

/// Whether the bytes are the end of an image of so many rows, and all marks are set.
pub fn is_end_two(bytes: &[u8], count: usize, marks: &[bool]) -> bool
    ensures { MatchBool result ((count < 2 ^ 32) × (bytes.now ≡ trailer count) × (list_all (λ x. x) marks.now ≡ true))
        (count < 2 ^ 32 → bytes.now ≡ trailer count → list_all (λ x. x) marks.now ≡ true → ⊥) }
{
    is_trailer(bytes, count) && are_set(marks)
}

// The bytes are no image from where these are left.
fn bad_at(bytes: &[u8], left: &[u8]) -> End<ImageRefusal>
    requires { length left.now ≤ length bytes.now }
    ensures { GoesBadAt bytes.now left.now result }
{
    let at = bytes.len() - left.len();
    End::Refused(ImageRefusal::BadImage { at: at as u64 })
}

/// The rows of the first frames in front of the bytes that tell capabilities among those told, at most so many, and the bytes
/// behind these frames. There is a mark for each capability; those of the capabilities that the rows tell are set. Memory is
/// asked for where the first frame asks. Without memory the marks of the capabilities that some of the first rows tell were
/// set, and no other.
pub fn rows_among<'a>(
    alloc: Global,
    told: &[KnownCapability],
    marks: &mut [bool],
    bytes: &'a [u8],
    most: usize,
) -> Result<(Vec<RawRow>, &'a [u8]), NoMemory>
    requires { length marks.old ≡ length told.now }
    ensures reads { IfOk result (λ read. IsPartTwo told.now bytes.now most marks.old read.0.items marks.new read.1.now) }
    ensures asked { OnErr result (FrameAsks bytes.now) }
    ensures short { OnErr result (HasMarkedSome told.now bytes.now most marks.old marks.new) }
{
    let mut rows = Vec::new(alloc);
    let mut left = bytes;
    'rows: while rows.len() < most {
        let (row, number, taken) = match next_row(alloc, told, left) {
            Ok(read) => read,
            Err(End::Refused(NotHere)) => return Ok((rows, left)),
            Err(End::NoMemory) => return Err(NoMemory),
        };
        marks[number] = true;
        rows.push(row)?;
        left = behind(left, taken);
    }
    Ok((rows, left))
}

/// A mark for each capability, none of which is set.
pub fn no_marks(alloc: Global, told: &[KnownCapability]) -> Result<Vec<bool>, NoMemory>
    ensures unset { IfOk result (λ marks. AreMarked marks.items (length told.now) []) }
    ensures some { OnErr result (0 < length told.now) }
{
    let mut marks = Vec::new(alloc);
    'marks: while marks.len() < told.len() {
        marks.push(false)?;
    }
    Ok(marks)
}

// Whether all marks are set.
fn are_set(marks: &[bool]) -> bool
    ensures { result ≡ list_all (λ x. x) marks.now }
{
    marks.iter().all(|mark| *mark)
}

// The row in the frame in front of the bytes, which tells a capability among those told, with the capability's number and
// the number of bytes taken.
fn next_row(
    alloc: Global,
    told: &[KnownCapability],
    bytes: &[u8],
) -> Result<(RawRow, usize, usize), End<NotHere>>
    ensures reads { ReadsRow told.now bytes.now result }
    ensures asked { IsErrOf result ends.NoMemory → FrameAsks bytes.now }
{
    let (numbered, taken) = decode_numbered_frame(alloc, bytes)?;
    let number = numbered.number as usize;
    let known = match told.get(number) {
        Some(known) => known,
        None => return Err(End::Refused(NotHere)),
    };
    let row = numbered.with_capability(alloc, known.capability(), known.spelled())?;
    Ok((row, number, taken))
}
