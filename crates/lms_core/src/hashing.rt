//! The hash inputs of RFC 8554: the identifier, a number of four bytes, one of two, and what follows.

ghost use Rattle.std.specs.Prelude.{◌≡◌, ◌++◌, ◌∷◌, []};
ghost use Rattle.sha2.specs.Sha256.{sha256};
ghost use Rattle.lms_core.specs.OneTime.{front, step};
ghost use Rattle.lms_core.specs.Tree.{leaf_value, inner_value, parent_value};

use crate::bytes::{four_bytes, join_into, two_bytes};
use sha2::{Digest, Sha256};

pub(crate) const D_PBLC: u16 = 0x8080;

pub(crate) const D_MESG: u16 = 0x8181;

const D_LEAF: u16 = 0x8282;

const D_INTR: u16 = 0x8383;

/// What a hash input begins with.
#[tactic(auto, unfolding(crate::specs::OneTime::front))]
pub(crate) fn input_front(identifier: &[u8; 16], number: u32, tag: u16) -> [u8; 22]
    ensures { result ≡ front identifier.now number tag }
{
    let mut numbered = [0; 20];
    join_into(&mut numbered, identifier, &four_bytes(number));
    let mut bytes = [0; 22];
    join_into(&mut bytes, &numbered, &two_bytes(tag));
    bytes
}

/// The hash of two pieces.
pub(crate) fn hash_two(first: &[u8], second: &[u8]) -> [u8; 32]
    ensures { result ≡ sha256 (first.now ++ second.now) }
{
    let mut hasher = Sha256::new();
    hasher.update(first);
    hasher.update(second);
    hasher.finalize()
}

/// The hash of three pieces.
pub(crate) fn hash_three(first: &[u8], second: &[u8], third: &[u8]) -> [u8; 32]
    ensures { result ≡ sha256 ((first.now ++ second.now) ++ third.now) }
{
    let mut hasher = Sha256::new();
    hasher.update(first);
    hasher.update(second);
    hasher.update(third);
    hasher.finalize()
}

/// Step `number` of a chain.
pub(crate) fn chain_step(front: &[u8; 22], number: u8, value: &[u8; 32]) -> [u8; 32]
    ensures { result ≡ step front.now number value.now }
{
    hash_three(front, &[number], value)
}

/// The value of a leaf.
#[tactic(auto, unfolding(crate::specs::Tree::leaf_value))]
pub(crate) fn leaf(identifier: &[u8; 16], node: u32, key: &[u8; 32]) -> [u8; 32]
    ensures { result ≡ leaf_value identifier.now node key.now }
{
    hash_two(&input_front(identifier, node, D_LEAF), key)
}

/// The value of a node above the leaves.
#[tactic(auto, unfolding(crate::specs::Tree::inner_value))]
pub(crate) fn inner(identifier: &[u8; 16], node: u32, left: &[u8; 32], right: &[u8; 32]) -> [u8; 32]
    ensures { result ≡ inner_value identifier.now node left.now right.now }
{
    hash_three(&input_front(identifier, node, D_INTR), left, right)
}

/// The value of the node above a node.
#[tactic(auto, unfolding(crate::specs::Tree::parent_value))]
pub(crate) fn parent(
    identifier: &[u8; 16],
    node: u32,
    value: &[u8; 32],
    sibling: &[u8; 32],
) -> [u8; 32]
    ensures { result ≡ parent_value identifier.now node value.now sibling.now }
{
    if node % 2 == 1 {
        inner(identifier, node / 2, sibling, value)
    } else {
        inner(identifier, node / 2, value, sibling)
    }
}
