//! What one leaf of a tree signs.

ghost use Rattle.std.specs.Prelude.{◌≡◌, ◌++◌, ◌+◌, ◌<◌, length, IfOk, OnOk};
ghost use Rattle.lms_core.specs.Bytes.{u32_str};
ghost use Rattle.lms_core.specs.Accepts.{one_time_type, levels, leaves, type_of};
ghost use Rattle.lms_core.specs.OneTime.{digits, message_hash};
ghost use Rattle.lms_core.specs.Signer.{key_of_leaf, values_at, node_value, root_value, sibling, path_of, randomizer, public_key, signature_of};

use crate::bytes::{four_bytes, join_into};
use crate::hashing::{hash_three, leaf, parent};
use crate::height::ONE_TIME_TYPE;
use crate::key_chains::{append_values, key_of_ends, lengthen, secret_chains};
use crate::known_tree::KnownTree;
use crate::one_time::digits_of;
use crate::tree::Tree;
use sha_lanes::run_chains;
use spelling::NoMemory;
use std::alloc::Global;

/// The other node below the node above this one.
#[tactic(auto, unfolding(crate::specs::Signer::sibling))]
fn sibling_of(node: u32) -> u32
    ensures { result ≡ sibling node }
{
    if node % 2 == 1 { node - 1 } else { node + 1 }
}

impl Tree {
    /// The randomizer of a leaf's signature of a message.
    #[tactic(auto, unfolding(crate::specs::Signer::randomizer))]
    fn randomizer(&self, index: u32, message: &[u8]) -> [u8; 32]
        ensures { result ≡ randomizer self.now.seed index message.now }
    {
        let mut secret = [0; 36];
        join_into(&mut secret, &self.seed, &four_bytes(index));
        hash_three(&[0x43], &secret, message)
    }

    /// Appends the chain values of a leaf at the digits to `values`, and answers the leaf's one-time public
    /// key: the chains go on from their values to their ends.
    fn sign_chains(
        &self,
        index: u32,
        digits: &[u8; 34],
        values: &mut Vec<u8>,
    ) -> Result<[u8; 32], NoMemory>
        ensures key { IfOk result (λ key. key ≡ key_of_leaf self.now.identifier self.now.seed index) }
        ensures signed { OnOk result (values.new.items
            ≡ values.old.items ++ values_at self.now.identifier self.now.seed index 0 digits.now) }
    {
        let mut chains = secret_chains(&self.identifier, &self.seed, index, digits);
        run_chains(&mut chains);
        append_values(&chains, values)?;
        lengthen(&mut chains);
        run_chains(&mut chains);
        Ok(key_of_ends(&self.identifier, index, &chains))
    }

    /// The parts of a signature joined, behind the public key.
    fn joined(
        &self,
        alloc: Global,
        public: &[u8; 56],
        head: &[u8; 40],
        values: &[u8],
        path: &[u8],
    ) -> Result<Vec<u8>, NoMemory>
        ensures { IfOk result (λ v. v.items ≡ (((public.now ++ head.now) ++ values.now) ++ u32_str (type_of self.now.height)) ++ path.now) }
    {
        let mut bytes = Vec::new(alloc);
        append_two(public, head, &mut bytes)?;
        self.append_rest(values, path, &mut bytes)?;
        Ok(bytes)
    }

    /// Appends the parts of a signature behind its head.
    fn append_rest(&self, values: &[u8], path: &[u8], bytes: &mut Vec<u8>) -> Result<(), NoMemory>
        ensures { OnOk result (bytes.new.items ≡ ((bytes.old.items ++ values.now) ++ u32_str (type_of self.now.height)) ++ path.now) }
    {
        append_two(values, &four_bytes(self.height.tree_type()), bytes)?;
        bytes.extend_from_slice(path)?;
        Ok(())
    }
}

/// Appends two pieces.
fn append_two(first: &[u8], second: &[u8], bytes: &mut Vec<u8>) -> Result<(), NoMemory>
    ensures { OnOk result (bytes.new.items ≡ (bytes.old.items ++ first.now) ++ second.now) }
{
    bytes.extend_from_slice(first)?;
    bytes.extend_from_slice(second)?;
    Ok(())
}

/// What stands in front of a signature's chain values: the leaf's number, the one-time type and the randomizer.
fn head_of(index: u32, randomizer: &[u8; 32]) -> [u8; 40]
    ensures { result ≡ (u32_str index ++ u32_str one_time_type) ++ randomizer.now }
{
    let mut numbers = [0; 8];
    join_into(&mut numbers, &four_bytes(index), &four_bytes(ONE_TIME_TYPE));
    let mut head = [0; 40];
    join_into(&mut head, &numbers, randomizer);
    head
}

impl KnownTree {
    /// Appends the siblings on the way from a leaf to the root to `path`, and answers the root's value.
    fn append_path(
        &self,
        index: u32,
        leaf: &[u8; 32],
        path: &mut Vec<u8>,
    ) -> Result<[u8; 32], NoMemory>
        requires index_in { index < leaves self.now.height }
        requires leaf_is { leaf.now ≡ node_value self.now.height self.now.identifier self.now.seed 0 (leaves self.now.height + index) }
        ensures root { IfOk result (λ root. root ≡ root_value self.now.height self.now.identifier self.now.seed) }
        ensures siblings { OnOk result (path.new.items ≡ path.old.items
            ++ path_of self.now.height self.now.identifier self.now.seed 0 (leaves self.now.height + index) (levels self.now.height)) }
    {
        let tree = self.tree();
        let mut node = tree.height.leaves() + index;
        let mut reached = *leaf;
        'levels: for level in 0..tree.height.levels() {
            let other = self.value(level, sibling_of(node));
            path.extend_from_slice(&other)?;
            reached = parent(&tree.identifier, node, &reached, &other);
            node /= 2;
        }
        Ok(reached)
    }

    /// The public key and a leaf's signature of a message, joined.
    pub(crate) fn signed(
        &self,
        alloc: Global,
        index: u32,
        message: &[u8],
    ) -> Result<Vec<u8>, NoMemory>
        requires { index < leaves self.now.height }
        ensures identifier { length self.now.identifier ≡ 16 }
        ensures signature { IfOk result (λ v. v.items ≡ public_key self.now.height self.now.identifier self.now.seed
            ++ signature_of self.now.height self.now.identifier self.now.seed index message.now) }
    {
        let tree = self.tree();
        let randomizer = tree.randomizer(index, message);
        let mut values = Vec::new(alloc);
        let mut path = Vec::new(alloc);
        let public = self.append_parts(index, &randomizer, message, &mut values, &mut path)?;
        tree.joined(alloc, &public, &head_of(index, &randomizer), &values, &path)
    }

    /// Appends the chain values of a leaf's signature of a message to `values`, and the siblings on the leaf's way to
    /// the root to `path`, and answers the public key.
    fn append_parts(
        &self,
        index: u32,
        randomizer: &[u8; 32],
        message: &[u8],
        values: &mut Vec<u8>,
        path: &mut Vec<u8>,
    ) -> Result<[u8; 56], NoMemory>
        requires { index < leaves self.now.height }
        ensures public { IfOk result (λ public. public ≡ public_key self.now.height self.now.identifier self.now.seed) }
        ensures signed { OnOk result (values.new.items ≡ values.old.items
            ++ values_at self.now.identifier self.now.seed index 0 (digits (message_hash self.now.identifier index randomizer.now message.now))) }
        ensures siblings { OnOk result (path.new.items ≡ path.old.items
            ++ path_of self.now.height self.now.identifier self.now.seed 0 (leaves self.now.height + index) (levels self.now.height)) }
    {
        let tree = self.tree();
        let digits = digits_of(&tree.identifier, index, randomizer, message);
        let key = tree.sign_chains(index, &digits, values)?;
        let leaf = leaf(&tree.identifier, tree.height.leaves() + index, &key);
        let root = self.append_path(index, &leaf, path)?;
        Ok(tree.public_of_root(&root))
    }
}
