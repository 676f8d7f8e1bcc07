//! Signers of one index each.

ghost use Rattle.std.specs.Prelude.{◌≡◌, ◌≤◌, ◌<◌, ◌↔◌, ◌⊎◌, true, length, IfOk, OnOk, OnErr, IsErrOf};
ghost use Rattle.spelling.specs.declared.ending.End.TheVariants as ends;
ghost use Rattle.scheme_core.specs.declared.signer.TheConstants.{MAX_SIGNATURE};
ghost use Rattle.lms_core.specs.Accepts.{leaves};
ghost use Rattle.lms_core.specs.Use.{user_key_of, use_gives, use_signature};
ghost use Rattle.lms_core.specs.UseLaws.{use_gives-short};

use crate::known_tree::KnownTree;
use scheme_core::{SignRefusal, Signer};
use spelling::End;
use std::alloc::Global;
use std::marker::Model;
use willow_path::UserKey;

/// What signs one message, with one index of a key. It is made by `reserve_keys` and
/// `reserve_keys_on` alone, which take the index off the key's file first.
#[derive(Drop)]
pub struct OneUse {
    tree: KnownTree,
    index: u32,
    left: u64,
}

impl Model for OneUse {
    ghost use Rattle.std.specs.Prelude.{◌≤◌, ◌<◌};
    ghost use Rattle.lms_core.specs.Accepts.{leaves};
    ghost use Rattle.lms_core.specs.Use.{Use};

    ghost Value = { Use };

    ghost view = { λ s. record { height = s.tree.height; identifier = s.tree.identifier; seed = s.tree.seed; index = s.index; left = s.left } };

    ghost invariant = { λ s. s.index < leaves s.tree.height };
}

impl OneUse {
    /// A signer of an index that no other signer has.
    pub(crate) fn new(tree: KnownTree, index: u32) -> OneUse
        requires { index < leaves tree.height }
        ensures { result ≡ record { height = tree.height; identifier = tree.identifier; seed = tree.seed; index = index; left = 1 } }
    {
        OneUse {
            tree,
            index,
            left: 1,
        }
    }

    /// The key for which the signature is accepted. It hashes the whole tree, as `LmsKey::public` does, unless
    /// the signer is of `reserve_keys_on`, whose leaves are hashed already.
    pub fn user_key(&self) -> UserKey
        ensures { result ≡ user_key_of self.now.height self.now.identifier self.now.seed }
    {
        self.tree.user_key()
    }
}

impl Signer for OneUse {
    ghost gives = { use_gives };

    ghost left = { λ s. s.left };

    ghost faults = { λ _. 0 };

    ghost asks = { λ old new. (new ≡ old) ⊎ (new ≡ record old { left = 0 }) };

    /// Signs a message, once. It hashes the whole tree, as `LmsKey::public` does, or one leaf and the nodes above
    /// the leaves where the signer is of `reserve_keys_on`. After want of memory the signer is as it was.
    fn sign(&mut self, alloc: Global, message: &[u8]) -> Result<Vec<u8>, End<SignRefusal>>
        ensures given { IfOk result (λ signature. use_gives self.old message.now signature.items ≡ true) }
        ensures short { IfOk result (λ signature. length signature.items ≤ MAX_SIGNATURE) }
        ensures same { use_gives self.new ≡ use_gives self.old }
        ensures spent { IsErrOf result (ends.Refused SignRefusal.Spent) ↔ (self.old.left ≡ 0) }
        ensures failed { IsErrOf result (ends.Refused SignRefusal.Failed) → ⊥ }
        ensures signature { IfOk result (λ signature. signature.items ≡ use_signature self.old message.now) }
        ensures used { OnOk result (self.new ≡ record self.old { left = 0 }) }
        ensures kept { OnErr result (self.new ≡ self.old) }
    {
        if self.left == 0 {
            return Err(End::Refused(SignRefusal::Spent));
        }
        let signature = self.tree.signed(alloc, self.index, message)?;
        self.left = 0;
        Ok(signature)
    }

    fn left(&self) -> u64 {
        self.left
    }

    ghost gives_short = { use_gives-short };
}
