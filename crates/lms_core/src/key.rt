//! Keys of the signer and their files.

ghost use Rattle.std.specs.Prelude.{◌≡◌, ◌++◌, ◌+◌, ◌≤◌, ◌==◌, ◌&&◌, bytes_eq, length, take, MatchOption, IfSome, IfOk, OnOk, OnErr};
ghost use Rattle.lms_core.specs.Accepts.{levels, leaves};
ghost use Rattle.lms_core.specs.Key.{Key, IsKey, key_file, key_at, key_of_height, key_magic, raised};
ghost use Rattle.lms_core.specs.Signer.{public_key};
ghost use Rattle.lms_core.specs.Use.{user_key_of};

use crate::bytes::{field_at, four_bytes, join_into, number_at};
use crate::height::Height;
use crate::known_tree::KnownTree;
use crate::tree::Tree;
use spelling::NoMemory;
use std::alloc::Global;
use std::marker::Model;
use std::thread::Threads;
use willow_path::UserKey;

/// What a key file begins with.
const MAGIC: &[u8; 4] = b"WKY1";

/// A key that signs: the height of its tree, the identifier I of RFC 8554, the seed of its chains, and the
/// first index that is not used. A key whose next index is the number of its leaves is spent.
#[derive(Drop)]
pub struct LmsKey {
    pub(crate) tree: Tree,
    pub(crate) next: u32,
}

impl Model for LmsKey {
    ghost use Rattle.std.specs.Prelude.{◌≤◌};
    ghost use Rattle.lms_core.specs.Accepts.{leaves};
    ghost use Rattle.lms_core.specs.Key.{Key};

    ghost Value = { Key };

    ghost view = { λ k. record { height = k.tree.height; identifier = k.tree.identifier; seed = k.tree.seed; next = k.next } };

    ghost invariant = { λ k. k.next ≤ leaves k.tree.height };
}

impl LmsKey {
    /// A key of which no index is used. Identifier and seed are to be drawn at random, each once.
    pub fn make(height: Height, identifier: [u8; 16], seed: [u8; 32]) -> LmsKey
        ensures { result ≡ record { height = height; identifier = identifier; seed = seed; next = 0 } }
    {
        let tree = Tree {
            height,
            identifier,
            seed,
        };
        LmsKey { tree, next: 0 }
    }

    /// The public key of RFC 8554: the tree's type, the one-time type, the identifier and the root.
    /// It hashes the whole tree on one processor: about 40 milliseconds at height 5, and 1.2 seconds at height 10.
    pub fn public(&self) -> [u8; 56]
        ensures { result ≡ public_key self.now.height self.now.identifier self.now.seed }
    {
        KnownTree::bare(self.tree).public()
    }

    /// The user key for which the signatures are accepted: kind 1, and the SHA-256 of the public key.
    pub fn user_key(&self) -> UserKey
        ensures { result ≡ user_key_of self.now.height self.now.identifier self.now.seed }
    {
        KnownTree::bare(self.tree).user_key()
    }

    /// The user key, whose tree is hashed on all processors. It takes memory for the leaves' values, 32 kilobytes
    /// at height 10, and some more while they are put together.
    pub fn user_key_on<R: Threads + Sync>(&self, rt: &R, alloc: Global) -> Result<UserKey, NoMemory>
        ensures { IfOk result (λ key. key ≡ user_key_of self.now.height self.now.identifier self.now.seed) }
    {
        Ok(KnownTree::hashed(rt, alloc, self.tree)?.user_key())
    }

    /// The first index that is not used, at most the number of leaves.
    pub fn next(&self) -> u32
        ensures value { result ≡ self.now.next }
        ensures bound { result ≤ leaves self.now.height }
    {
        self.next
    }

    /// The bytes of the key's file.
    pub(crate) fn file(&self) -> [u8; 57]
        ensures { result ≡ key_file self.now }
    {
        let mut front = [0; 5];
        join_into(&mut front, MAGIC, &[self.tree.height.levels() as u8]);
        let mut named = [0; 21];
        join_into(&mut named, &front, &self.tree.identifier);
        let mut seeded = [0; 53];
        join_into(&mut seeded, &named, &self.tree.seed);
        let mut file = [0; 57];
        join_into(&mut file, &seeded, &four_bytes(self.next));
        file
    }

    /// Appends the key's file: `WKY1`, the height in one byte (5 or 10), the identifier, the seed and the
    /// next index in four bytes, 57 bytes in all. Without memory `out` stays as it was.
    pub fn encode(&self, out: &mut Vec<u8>) -> Result<(), NoMemory>
        ensures appended { OnOk result (out.new.items ≡ out.old.items ++ key_file self.now) }
        ensures kept { OnErr result (out.new.items ≡ out.old.items) }
    {
        out.extend_from_slice(&self.file())?;
        Ok(())
    }

    /// The key of a file; none exactly where the bytes are no key file as `encode` writes one.
    pub fn decode(bytes: &[u8]) -> Option<LmsKey>
        ensures file { MatchOption result ((k : Key) → IsKey k → bytes.now ≡ key_file k → ⊥) (λ key. bytes.now ≡ key_file key) }
        ensures key { IfSome result IsKey }
    {
        LmsKey::read(bytes)
    }

    /// The key that is read in a file.
    #[tactic(auto, unfolding(crate::specs::Key::key_at))]
    fn read(bytes: &[u8]) -> Option<LmsKey>
        ensures { result ≡ key_at bytes.now }
    {
        if has_file_form(bytes) {
            LmsKey::read_fields(bytes, Height::of_levels(bytes[4]))
        } else {
            None
        }
    }

    /// The key of this height that is read in the fields of a file.
    #[tactic(auto, unfolding(crate::specs::Key::key_of_height))]
    fn read_fields(bytes: &[u8], height: Option<Height>) -> Option<LmsKey>
        requires { length bytes.now ≡ 57 }
        ensures { result ≡ key_of_height bytes.now height }
    {
        let height = height?;
        let next = number_at(bytes, 53);
        if next <= height.leaves() {
            let tree = Tree {
                height,
                identifier: field_at::<16>(bytes, 5),
                seed: field_at::<32>(bytes, 21),
            };
            Some(LmsKey { tree, next })
        } else {
            None
        }
    }
}

/// Whether the bytes have the length of a key file and begin as one.
fn has_file_form(bytes: &[u8]) -> bool
    ensures { result ≡ (length bytes.now == 57 && bytes_eq (take 4 bytes.now) key_magic) }
{
    bytes.len() == 57 && &bytes[..4] == MAGIC.as_slice()
}
