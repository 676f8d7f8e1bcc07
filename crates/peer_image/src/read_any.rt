//! Images of either version, as they are read.

ghost use Rattle.std.specs.Prelude.{◌↔◌, IsErrOf, IsTrue};
ghost use Rattle.spelling.specs.declared.ending.End.TheVariants as ends;
ghost use Rattle.peer_image.specs.ImageReading.{ImageAsks, IsOfVersionTwo, ReadsImage, ReadsItsVersion};

use crate::read::Image;
use crate::read_one::read_image_one;
use crate::read_two::read_image_two;
use crate::refusal::ImageRefusal;
use spelling::End;
use std::alloc::Global;

/// The rows of the image that the bytes are, of either version: of version 2 where the first four bytes are the text WIM2,
/// else of version 1. The rest is as `read_image_two` and `read_image_one` say.
#[tactic(auto, using(crate::proofs::Stops::reads_two, crate::proofs::Stops::reads_one))]
pub fn read_image(alloc: Global, bytes: &[u8]) -> Result<Image, End<ImageRefusal>>
    ensures image { ReadsImage bytes.now result }
    ensures version { ReadsItsVersion bytes.now result }
    ensures asked { IsErrOf result ends.NoMemory → ImageAsks bytes.now }
{
    if is_of_version_two(bytes) {
        read_image_two(alloc, bytes)
    } else {
        read_image_one(alloc, bytes)
    }
}

/// Whether the first four bytes are the text WIM2.
pub fn is_of_version_two(bytes: &[u8]) -> bool
    ensures { IsTrue result ↔ IsOfVersionTwo bytes.now }
{
    bytes.len() >= 4 && &bytes[..4] == b"WIM2".as_slice()
}
