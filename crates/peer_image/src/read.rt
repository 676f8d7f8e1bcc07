//! What is read of an image, and how an image of either version ends.

ghost use Rattle.std.specs.Prelude.{◌≡◌, ◌<◌, ◌^◌, MatchBool};
ghost use Rattle.peer_image.specs.Image.{trailer};

use cap_codec::RawRow;
use willow_path::NamespaceKey;

/// The rows of an image, by rising subspace and path, and the namespace that it is of. Nothing is said of whether the
/// rows are of that namespace, or authorised.
#[derive(Drop)]
pub struct Image {
    /// The key behind the first four bytes.
    pub namespace: NamespaceKey,
    /// The rows, in their order.
    pub rows: Vec<RawRow>,
}

/// Whether the bytes are the end of an image of so many rows.
pub fn is_trailer(bytes: &[u8], count: usize) -> bool
    ensures { MatchBool result ((count < 2 ^ 32) × (bytes.now ≡ trailer count)) (count < 2 ^ 32 → bytes.now ≡ trailer count → ⊥) }
{
    match u32::try_from(count) {
        Ok(count) => is_end(bytes, count),
        Err(_) => false,
    }
}

// Whether the bytes are four bytes 00 and the count.
fn is_end(bytes: &[u8], count: u32) -> bool
    ensures { MatchBool result (bytes.now ≡ trailer count) (bytes.now ≡ trailer count → ⊥) }
{
    bytes.len() == 8
        && &bytes[..4] == [0; 4].as_slice()
        && &bytes[4..] == count.to_be_bytes().as_slice()
}
