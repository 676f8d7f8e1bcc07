//! Images of version 1 as they are read.

ghost use Rattle.std.specs.Prelude.{◌≡◌, ◌<◌, ◌++◌, length, IsErrOf};
ghost use Rattle.spelling.specs.declared.ending.End.TheVariants as ends;
ghost use Rattle.willow_path.specs.Key.{IsKey};
ghost use Rattle.peer_image.specs.ImageOne.{magic_one};
ghost use Rattle.peer_image.specs.ImageOneReading.{HasNoHeader, ImageOneAsks, ReadsImageOne, ReadsRowsOne, raw_rows};
ghost use Rattle.peer_image.specs.Order.{IsInnerRising};

use crate::order::order_refusal;
use crate::parts::image_head;
use crate::read::{Image, is_trailer};
use crate::refusal::ImageRefusal;
use cap_codec::frames_in_front;
use spelling::{End, NoMemory};
use std::alloc::Global;
use willow_path::NamespaceKey;

/// The rows of the image of version 1 that the bytes are: the text WIM1, a namespace key, frames of rows, four bytes 00,
/// the number of rows in four bytes, and nothing else. The rows rise by subspace and then by path, and none
/// dominates a later one. Bytes that are no image are refused first, then rows that do not rise, then pruned ones,
/// with the places that `ImageRefusal` tells. Memory is asked for behind the header, where the first
/// frame asks.
pub fn read_image_one(alloc: Global, bytes: &[u8]) -> Result<Image, End<ImageRefusal>>
    ensures image { ReadsImageOne bytes.now result }
    ensures sure { IsErrOf result ends.NoMemory → HasNoHeader bytes.now → ⊥ }
    ensures asked { IsErrOf result ends.NoMemory → ImageOneAsks bytes.now }
{
    match read_rows(alloc, bytes) {
        Ok(image) => in_order(alloc, bytes, image),
        Err(end) => Err(end),
    }
}

// The image, where its rows are in order.
fn in_order(alloc: Global, bytes: &[u8], image: Image) -> Result<Image, End<ImageRefusal>>
    requires { ReadsRowsOne bytes.now (Ok image) }
    ensures image { ReadsImageOne bytes.now result }
    ensures some { IsErrOf result ends.NoMemory → 0 < length image.rows.items }
    ensures rising { IsErrOf result ends.NoMemory → IsInnerRising (raw_rows image.rows.items) }
{
    match order_refusal(alloc, &image.rows) {
        Ok(None) => Ok(image),
        Ok(Some(refusal)) => Err(End::Refused(refusal)),
        Err(NoMemory) => Err(End::NoMemory),
    }
}

// The rows of the image that the bytes are, in any order.
fn read_rows(alloc: Global, bytes: &[u8]) -> Result<Image, End<ImageRefusal>>
    ensures rows { ReadsRowsOne bytes.now result }
    ensures sure { IsErrOf result ends.NoMemory → HasNoHeader bytes.now → ⊥ }
    ensures asked { IsErrOf result ends.NoMemory → ImageOneAsks bytes.now }
{
    match image_head(bytes) {
        Some((namespace, behind)) => read_behind(alloc, bytes, namespace, behind),
        None => Err(End::Refused(ImageRefusal::BadImage { at: 0 })),
    }
}

// The rows behind the header of the bytes.
#[tactic(auto, using(crate::proofs::OneStops::headed))]
fn read_behind(
    alloc: Global,
    bytes: &[u8],
    namespace: NamespaceKey,
    behind: &[u8],
) -> Result<Image, End<ImageRefusal>>
    requires key { IsKey namespace }
    requires behind { bytes.now ≡ (magic_one ++ namespace) ++ behind.now }
    ensures rows { ReadsRowsOne bytes.now result }
    ensures sure { HasNoHeader bytes.now → ⊥ }
    ensures asked { IsErrOf result ends.NoMemory → ImageOneAsks bytes.now }
{
    match frames_in_front(alloc, behind) {
        Ok((rows, left)) => {
            if is_trailer(left, rows.len()) {
                Ok(Image { namespace, rows })
            } else {
                let at = bytes.len() - left.len();
                Err(End::Refused(ImageRefusal::BadImage { at: at as u64 }))
            }
        }
        Err(NoMemory) => Err(End::NoMemory),
    }
}
