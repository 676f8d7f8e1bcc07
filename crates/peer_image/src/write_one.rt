//! Images of version 1 as they are written.

ghost use Rattle.std.specs.Prelude.{◌≡◌, ◌<◌, ◌^◌, ◌++◌, length, map, IfOk, OnOk};
ghost use Rattle.std.specs.List.{AllByRecursion, flat_map};
ghost use Rattle.willow_entry.specs.Frame.{row_frame, HasFrame};
ghost use Rattle.peer_image.specs.ImageOne.{image_one, magic_one};

use crate::write::put_trailer;
use block_store::{Rows, Snapshot};
use spelling::{NoMemory, put_bytes};
use std::alloc::Global;
use willow_entry::{Row, encode_row_frame};
use willow_path::NamespaceKey;

/// How many bytes an image has besides its frames.
const AROUND: usize = 45;

/// How many bytes stand in front of the body in a frame.
const LENGTH: usize = 4;

/// The image of version 1 of the rows in their order: the text WIM1 and the namespace key, each row's frame, four bytes 00
/// and the number of rows. A row's bytes are written as it keeps them. Bodies have at most `MAX_FRAME` bytes.
#[tactic(auto, unfolding(crate::specs::ImageOne::image_one))]
pub fn write_rows_one<R: Row>(
    alloc: Global,
    namespace: &NamespaceKey,
    rows: &[R],
) -> Result<Vec<u8>, NoMemory>
    requires frames { AllByRecursion HasFrame (map R.value rows.now) }
    requires count { length rows.now < 2 ^ 32 }
    ensures { IfOk result (λ v. v.items ≡ image_one namespace.now (map R.value rows.now)) }
{
    let mut out = begun(alloc, namespace, 0)?;
    for row in rows {
        encode_row_frame(row, &mut out)?;
    }
    put_trailer(&mut out, rows.len() as u32)?;
    Ok(out)
}

/// The image of version 1 of a snapshot's rows, as `write_rows_one` makes it.
pub fn write_image_one<R: Row>(
    alloc: Global,
    namespace: &NamespaceKey,
    snapshot: &Snapshot<R>,
) -> Result<Vec<u8>, NoMemory>
    requires { AllByRecursion HasFrame (map R.value snapshot.now) }
    ensures { IfOk result (λ v. v.items ≡ image_one namespace.now (map R.value snapshot.now)) }
{
    let room = size_of_frames(snapshot.rows());
    image_of(alloc, namespace, snapshot.rows(), snapshot.len(), room)
}

// The image of so many rows, whose frames have so many bytes.
#[tactic(auto, unfolding(crate::specs::ImageOne::image_one))]
fn image_of<R: Row>(
    alloc: Global,
    namespace: &NamespaceKey,
    rows: Rows<'_, R>,
    count: u32,
    room: usize,
) -> Result<Vec<u8>, NoMemory>
    requires frames { AllByRecursion HasFrame (map R.value rows) }
    requires all { count ≡ length rows }
    ensures { IfOk result (λ v. v.items ≡ image_one namespace.now (map R.value rows.entry)) }
{
    let mut out = begun(alloc, namespace, room)?;
    put_frames(&mut out, rows)?;
    put_trailer(&mut out, count)?;
    Ok(out)
}

// Appends the frames of the rows.
fn put_frames<R: Row>(out: &mut Vec<u8>, rows: Rows<'_, R>) -> Result<(), NoMemory>
    requires { AllByRecursion HasFrame (map R.value rows) }
    ensures { OnOk result (out.new.items ≡ out.old.items ++ flat_map row_frame (map R.value rows.entry)) }
{
    let mut left = rows;
    while let Some(row) = left.next() {
        encode_row_frame(row, out)?;
    }
    Ok(())
}

// The text WIM1 and the namespace key, with room for what else an image has besides frames of so many bytes.
fn begun(alloc: Global, namespace: &NamespaceKey, frames: usize) -> Result<Vec<u8>, NoMemory>
    ensures { IfOk result (λ v. v.items ≡ magic_one ++ namespace.now) }
{
    let mut out = Vec::with_capacity(alloc, frames.saturating_add(AROUND))?;
    put_head_one(&mut out, namespace)?;
    Ok(out)
}

// Appends what an image of version 1 begins with: the text WIM1 and the namespace key. Without memory a front of it was
// appended.
fn put_head_one(out: &mut Vec<u8>, namespace: &NamespaceKey) -> Result<(), NoMemory>
    ensures { OnOk result (out.new.items ≡ out.old.items ++ (magic_one ++ namespace.now)) }
{
    put_bytes(out, b"WIM1")?;
    put_bytes(out, &namespace.to_bytes())
}

// How many bytes the frames have: only a measure of the room, so a sum that would not fit stays at the greatest number.
fn size_of_frames<R: Row>(rows: Rows<'_, R>) -> usize {
    let mut size: usize = 0;
    let mut left = rows;
    while let Some(row) = left.next() {
        size = size.saturating_add(size_of_frame(row));
    }
    size
}

// How many bytes a row's frame has.
fn size_of_frame<R: Row>(row: &R) -> usize {
    let body = row
        .entry_bytes()
        .len()
        .saturating_add(row.token_bytes().len());
    body.saturating_add(LENGTH)
}
