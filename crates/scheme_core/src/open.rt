//! Open keys: a signature is a digest that anyone can make. They are insecure by design.

ghost use Rattle.std.specs.Prelude.{◌≡◌, ◌++◌, ◌≤◌, ℕ, List, length, true, slice_index, IfOk, IsErrOf, refl};
ghost use Rattle.spelling.specs.declared.ending.End.TheVariants as ends;
ghost use Rattle.scheme_core.specs.Open.{open_accepts, open_rules, open_signature};
ghost use Rattle.scheme_core.specs.OpenLaws.{open_accepts-short};

use crate::claim::Claim;
use crate::scheme::{Scheme, Verify, VerifyMany};
use crate::signer::{MAX_SIGNATURE, SignRefusal, Signer};
use crate::together::verify_together;
use sha2::{Digest, Sha256};
use spelling::NoMemory;
use std::alloc::Global;
use std::marker::Model;
use willow_path::{End, NamespaceKey, UserKey};

/// The digest of the key's bytes and then the message: the open signature.
fn open_signature(key: &[u8; 33], message: &[u8]) -> [u8; 32]
    ensures { result ≡ open_signature key.now message.now }
{
    let mut hasher = Sha256::new();
    hasher.update(key);
    hasher.update(message);
    hasher.finalize()
}

/// Whether the key is open and the signature is its digest of the message.
#[tactic(auto, unfolding(crate::specs::Open::open_accepts))]
fn open_accepts(key: &[u8; 33], message: &[u8], signature: &[u8]) -> bool
    ensures { result ≡ open_accepts key.now message.now signature.now }
{
    key[0] == 0 && signature == open_signature(key, message).as_slice()
}

/// The scheme of open keys alone: it accepts nothing for keys of another kind.
#[derive(Clone, Copy)]
pub struct OpenScheme;

impl Verify for OpenScheme {
    ghost rules = { open_rules };

    fn verify_user(&self, key: &UserKey, message: &[u8], signature: &[u8]) -> bool {
        open_accepts(&key.to_bytes(), message, signature)
    }

    fn verify_namespace(&self, key: &NamespaceKey, message: &[u8], signature: &[u8]) -> bool {
        open_accepts(&key.to_bytes(), message, signature)
    }

    #[tactic(auto, unfolding(crate::specs::Open::is_communal))]
    fn is_communal(&self, key: &NamespaceKey) -> bool {
        key.to_bytes()[32] % 2 == 0
    }
}

impl VerifyMany for OpenScheme {
    fn verify_users(&self, alloc: Global, claims: &[Claim<'_>]) -> Result<Vec<bool>, NoMemory> {
        verify_together(self, alloc, claims)
    }

    ghost alike = { λ key message signature. refl };
}

impl Scheme for OpenScheme {}

/// What signs with an open key. It never fails and is never spent.
#[derive(Clone, Copy)]
pub struct OpenSigner {
    key: UserKey,
}

impl Model for OpenSigner {
    ghost use Rattle.std.specs.Prelude.{◌≡◌, ℕ, List, slice_index};

    ghost Value = { List ℕ };

    ghost view = { λ s. s.key };

    ghost invariant = { λ s. slice_index s.key 0 ≡ 0 };

    ghost inverse = { λ v. record { key = v } };
}

impl OpenSigner {
    /// Signs with a key of kind 0.
    pub fn new(key: UserKey) -> OpenSigner
        requires { slice_index key 0 ≡ 0 }
        ensures { result ≡ key }
    {
        OpenSigner { key }
    }
}

impl Signer for OpenSigner {
    ghost gives = { open_accepts };

    ghost left = { λ _. 1 };

    ghost faults = { λ _. 0 };

    ghost asks = { λ old new. new ≡ old };

    /// Signs a message. It never refuses, and the signer stays as it was.
    #[tactic(auto, using(crate::proofs::OpenSignatures::open_accepts_own))]
    fn sign(&mut self, alloc: Global, message: &[u8]) -> Result<Vec<u8>, End<SignRefusal>>
        ensures given { IfOk result (λ signature. open_accepts self.old message.now signature.items ≡ true) }
        ensures short { IfOk result (λ signature. length signature.items ≤ MAX_SIGNATURE) }
        ensures same { open_accepts self.new ≡ open_accepts self.old }
        ensures spent { IsErrOf result (ends.Refused SignRefusal.Spent) → ⊥ }
        ensures failed { IsErrOf result (ends.Refused SignRefusal.Failed) → ⊥ }
        ensures kept { self.new ≡ self.old }
    {
        let signature = open_signature(&self.key.to_bytes(), message);
        Ok(Vec::from_slice(alloc, &signature)?)
    }

    fn left(&self) -> u64 {
        1
    }

    ghost gives_short = { open_accepts-short };
}
