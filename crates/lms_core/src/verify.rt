//! Verification of LMS signatures.

ghost use Rattle.std.specs.Prelude.{◌≡◌, ◌*◌, ◌<◌, ◌^◌, ◌≤◌, length, IsTrue, IfSome};
ghost use Rattle.lms_core.specs.Bytes.{u32_at};
ghost use Rattle.lms_core.specs.Tree.{climb};
ghost use Rattle.lms_core.specs.Accepts.{levels, leaves, is_sound, sound_height, signature_length, root_of, lms_accepts};

use crate::bytes::{field_at, number_at};
use crate::hashing::{leaf, parent};
use crate::height::{Height, ONE_TIME_TYPE};
use crate::one_time::told_key;

/// The value of the node that stands as many levels above a node as the path has siblings.
pub(crate) fn climbed(
    identifier: &[u8; 16],
    node: u32,
    value: &[u8; 32],
    levels: usize,
    path: &[u8],
) -> [u8; 32]
    requires few { levels ≤ 10 }
    requires whole { length path.now ≡ 32 * levels }
    ensures { result ≡ climb identifier.now node value.now levels path.now }
{
    let mut at = node;
    let mut reached = *value;
    'levels: for level in 0..levels {
        let sibling = field_at::<32>(path, 32 * level);
        reached = parent(identifier, at, &reached, &sibling);
        at /= 2;
    }
    reached
}

/// Whether a public key of this height and a signature have the profile's types and lengths.
#[tactic(auto, unfolding(crate::specs::Accepts::is_sound))]
fn is_sound_at(height: Height, public: &[u8; 56], signature: &[u8]) -> bool
    ensures value { result ≡ is_sound height public.now signature.now }
    ensures whole { IsTrue result → length signature.now ≡ signature_length height }
    ensures leaf { IsTrue result → u32_at 0 signature.now < leaves height }
{
    number_at(public, 4) == ONE_TIME_TYPE
        && signature.len() == 1132 + 32 * height.levels()
        && number_at(signature, 4) == ONE_TIME_TYPE
        && number_at(signature, 1128) == height.tree_type()
        && number_at(signature, 0) < height.leaves()
}

/// The height of the tree of a public key and a signature that are sound together.
#[tactic(auto, unfolding(crate::specs::Accepts::sound_height))]
fn sound(public: &[u8; 56], signature: &[u8]) -> Option<Height>
    ensures value { result ≡ sound_height public.now signature.now }
    ensures whole { IfSome result (λ height. length signature.now ≡ signature_length height) }
    ensures leaf { IfSome result (λ height. u32_at 0 signature.now < leaves height) }
{
    let height = Height::of_type(number_at(public, 0))?;
    if is_sound_at(height, public, signature) {
        Some(height)
    } else {
        None
    }
}

/// The root that a signature of a message tells.
fn told_root(height: Height, identifier: &[u8; 16], message: &[u8], signature: &[u8]) -> [u8; 32]
    requires whole { length signature.now ≡ signature_length height }
    requires leaf { u32_at 0 signature.now < leaves height }
    ensures { result ≡ root_of height identifier.now message.now signature.now }
{
    let index = number_at(signature, 0);
    let randomizer = field_at::<32>(signature, 8);
    let key = told_key(
        identifier,
        index,
        &randomizer,
        &signature[40..1128],
        message,
    );
    let node = height.leaves() + index;
    climbed(
        identifier,
        node,
        &leaf(identifier, node, &key),
        height.levels(),
        &signature[1132..],
    )
}

/// Whether `signature` is a signature of `message` under `public` that RFC 8554 accepts, in the profile of
/// LMOTS_SHA256_N32_W8 with LMS_SHA256_M32_H5 or LMS_SHA256_M32_H10.
///
/// It takes no memory, and hashes at most 8,700 blocks beside the message.
pub fn lms_verify(public: &[u8; 56], message: &[u8], signature: &[u8]) -> bool
    ensures { result ≡ lms_accepts public.now message.now signature.now }
{
    match sound(public, signature) {
        Some(height) => {
            let root = told_root(height, &field_at::<16>(public, 8), message, signature);
            root.as_slice() == &public[24..]
        }
        None => false,
    }
}
