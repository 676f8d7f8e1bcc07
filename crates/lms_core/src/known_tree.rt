//! Trees of which the values of the leaves may be known, and the values of their other nodes.

ghost use Rattle.std.specs.Prelude.{◌≡◌, ◌+◌, ◌*◌, ◌-◌, ◌^◌, ◌<◌, ◌≤◌, IfOk};
ghost use Rattle.lms_core.specs.Accepts.{levels, leaves};
ghost use Rattle.lms_core.specs.Signer.{node_value, root_value, public_key};
ghost use Rattle.lms_core.specs.Use.{user_key_of};

use crate::bytes::join_into;
use crate::hashing::inner;
use crate::tree::Tree;
use sha2::{Digest, Sha256};
use spelling::NoMemory;
use std::alloc::Global;
use std::marker::Model;
use std::sync::Arc;
use std::thread::Threads;
use willow_path::UserKey;

/// A tree, and the values of its leaves where they were hashed already. Nearly all the work of a tree is that of
/// its leaves. A contract sees the tree.
#[derive(Drop)]
pub(crate) struct KnownTree {
    tree: Tree,
    leaves: Option<Arc<Vec<[u8; 32]>>>,
}

impl Model for KnownTree {
    ghost use Rattle.std.specs.Prelude.{◌≡◌, IfSome};
    ghost use Rattle.std.specs.Arc.{arc_value};
    ghost use Rattle.lms_core.specs.declared.tree.Tree.{Tree};
    ghost use Rattle.lms_core.specs.KnownTrees.{leaf_values};

    ghost Value = { Tree };

    ghost view = { λ t. t.tree };

    ghost invariant = { λ t. IfSome t.leaves (λ known. (arc_value known).items ≡ leaf_values t.tree.height t.tree.identifier t.tree.seed) };
}

impl KnownTree {
    /// The tree with no leaf known.
    pub(crate) fn bare(tree: Tree) -> KnownTree
        ensures { result ≡ tree }
    {
        KnownTree { tree, leaves: None }
    }

    /// The tree with all leaves known, which are hashed on all processors.
    pub(crate) fn hashed<R: Threads + Sync>(
        rt: &R,
        alloc: Global,
        tree: Tree,
    ) -> Result<KnownTree, NoMemory>
        ensures { IfOk result (λ known. known ≡ tree) }
    {
        let values = tree.leaf_values(rt, alloc)?;
        let leaves = Some(Arc::new(alloc, values)?);
        Ok(KnownTree { tree, leaves })
    }

    /// The same tree once more, with the same memory for its leaves.
    pub(crate) fn share(&self) -> Result<KnownTree, NoMemory>
        ensures { IfOk result (λ other. other ≡ self.now) }
    {
        let leaves = match &self.leaves {
            Some(values) => Some(values.clone()?),
            None => None,
        };
        Ok(KnownTree {
            tree: self.tree,
            leaves,
        })
    }

    /// The tree without its leaves.
    pub(crate) fn tree(&self) -> Tree
        ensures { result ≡ self.now }
    {
        self.tree
    }

    /// The value of a leaf, which is hashed unless it is known.
    fn leaf_value(&self, index: u32) -> [u8; 32]
        requires { index < leaves self.now.height }
        ensures { result ≡ node_value self.now.height self.now.identifier self.now.seed 0 (leaves self.now.height + index) }
    {
        match &self.leaves {
            Some(values) => values[index as usize],
            None => self.tree.leaf_value(index),
        }
    }

    /// The value of a node that stands `level` levels above the leaves.
    pub(crate) fn value(&self, level: usize, node: u32) -> [u8; 32]
        requires level_in { level ≤ levels self.now.height }
        requires node_from { 2 ^ (levels self.now.height - level) ≤ node }
        requires node_to { node < 2 * 2 ^ (levels self.now.height - level) }
        ensures { result ≡ node_value self.now.height self.now.identifier self.now.seed level node }
    {
        if level == 0 {
            return self.leaf_value(node - self.tree.height.leaves());
        }
        let left = self.value(level - 1, 2 * node);
        let right = self.value(level - 1, 2 * node + 1);
        inner(&self.tree.identifier, node, &left, &right)
    }

    /// The value of the root.
    fn root(&self) -> [u8; 32]
        ensures { result ≡ root_value self.now.height self.now.identifier self.now.seed }
    {
        self.value(self.tree.height.levels(), 1)
    }

    /// The public key.
    pub(crate) fn public(&self) -> [u8; 56]
        ensures { result ≡ public_key self.now.height self.now.identifier self.now.seed }
    {
        self.tree.public_of_root(&self.root())
    }

    /// The key whose body is the digest of the public key.
    pub(crate) fn user_key(&self) -> UserKey
        ensures { result ≡ user_key_of self.now.height self.now.identifier self.now.seed }
    {
        let mut bytes = [0; 33];
        join_into(&mut bytes, &[1], &Sha256::digest(self.public()));
        match UserKey::from_bytes(bytes) {
            Some(key) => key,
            None => unreachable!(),
        }
    }
}
