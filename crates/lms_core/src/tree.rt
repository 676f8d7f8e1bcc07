//! What a signer keeps of its tree, and the values of the tree's leaves.

ghost use Rattle.std.specs.Prelude.{◌≡◌, ◌++◌, ◌+◌, ◌<◌, IfOk};
ghost use Rattle.lms_core.specs.Accepts.{leaves};
ghost use Rattle.lms_core.specs.Signer.{key_of_leaf, node_value, root_value, public_key};
ghost use Rattle.lms_core.specs.KnownTrees.{leaf_values};

use crate::bytes::{four_bytes, join_into};
use crate::hashing::leaf;
use crate::height::{Height, ONE_TIME_TYPE};
use crate::key_chains::{key_of_ends, secret_chains};
use rayon::prelude::*;
use sha_lanes::run_chains;
use spelling::NoMemory;
use std::alloc::Global;
use std::thread::Threads;

/// How few leaves are worth a thread of their own. A leaf takes about a millisecond, and a thread starts in some
/// tens of microseconds, so the 32 leaves of a tree of height 5 are worth eight.
const LEAST_LEAVES: usize = 4;

/// The height of a tree, its identifier, and the seed of its chains.
#[derive(Clone, Copy, Drop)]
pub(crate) struct Tree {
    pub(crate) height: Height,
    pub(crate) identifier: [u8; 16],
    pub(crate) seed: [u8; 32],
}

impl Tree {
    /// The one-time public key of a leaf.
    fn leaf_key(&self, index: u32) -> [u8; 32]
        ensures { result ≡ key_of_leaf self.now.identifier self.now.seed index }
    {
        let mut chains = secret_chains(&self.identifier, &self.seed, index, &[255; 34]);
        run_chains(&mut chains);
        key_of_ends(&self.identifier, index, &chains)
    }

    /// The value of a leaf. It hashes 8,700 blocks.
    pub(crate) fn leaf_value(&self, index: u32) -> [u8; 32]
        requires { index < leaves self.now.height }
        ensures { result ≡ node_value self.now.height self.now.identifier self.now.seed 0 (leaves self.now.height + index) }
    {
        let key = self.leaf_key(index);
        leaf(&self.identifier, self.height.leaves() + index, &key)
    }

    /// The values of all leaves, in order, which are hashed on all processors.
    pub(crate) fn leaf_values<R: Threads + Sync>(
        &self,
        rt: &R,
        alloc: Global,
    ) -> Result<Vec<[u8; 32]>, NoMemory>
        ensures { IfOk result (λ values. values.items ≡ leaf_values self.now.height self.now.identifier self.now.seed) }
    {
        let values: Vec<[u8; 32]> = (0..self.height.leaves())
            .into_par_iter()
            .with_min_len(LEAST_LEAVES)
            .map(
                |index: u32| -> [u8; 32]
                    requires { index < leaves self.now.height }
                    ensures { result ≡ node_value self.entry.now.height self.entry.now.identifier self.entry.now.seed 0 (leaves self.entry.now.height + index) }
                { self.leaf_value(index) },
            )
            .collect(rt, alloc)?;
        Ok(values)
    }

    /// The public key of the root, which is computed of all leaves unless it is known.
    pub(crate) fn public_of_root(&self, root: &[u8; 32]) -> [u8; 56]
        requires { root.now ≡ root_value self.now.height self.now.identifier self.now.seed }
        ensures { result ≡ public_key self.now.height self.now.identifier self.now.seed }
    {
        let mut types = [0; 8];
        join_into(
            &mut types,
            &four_bytes(self.height.tree_type()),
            &four_bytes(ONE_TIME_TYPE),
        );
        let mut front = [0; 24];
        join_into(&mut front, &types, &self.identifier);
        let mut key = [0; 56];
        join_into(&mut key, &front, root);
        key
    }
}
