//! The scheme of keys of both kinds.

ghost use Rattle.std.specs.Prelude.{◌≡◌, refl};
ghost use Rattle.lms_core.specs.Use.{lms_key_accepts, peer_accepts, peer_rules};

use crate::verify::lms_verify;
use scheme_core::{Claim, OpenScheme, Scheme, Verify, VerifyMany, verify_together};
use sha2::{Digest, Sha256};
use spelling::NoMemory;
use std::alloc::Global;
use willow_path::{NamespaceKey, UserKey};

/// Whether a signature is accepted for a key of kind 1.
#[tactic(auto, unfolding(crate::specs::Use::lms_key_accepts))]
fn accepts_lms(key: &[u8; 33], message: &[u8], signature: &[u8]) -> bool
    ensures { result ≡ lms_key_accepts key.now message.now signature.now }
{
    match signature.split_first_chunk::<56>() {
        Some((public, rest)) => {
            Sha256::digest(public.as_slice()).as_slice() == &key[1..]
                && lms_verify(public, message, rest)
        }
        None => false,
    }
}

/// The scheme of open keys (kind 0), whose signatures anyone can make, and of LMS keys (kind 1).
///
/// A signature of an LMS key is the public key of RFC 8554 in 56 bytes, whose SHA-256 is the body of the
/// key, and then the LMS signature: 1,348 bytes at height 5 and 1,508 at height 10.
#[derive(Clone, Copy)]
pub struct PeerScheme;

impl Verify for PeerScheme {
    ghost rules = { peer_rules };

    #[tactic(auto, unfolding(crate::specs::Use::peer_accepts))]
    fn verify_user(&self, key: &UserKey, message: &[u8], signature: &[u8]) -> bool {
        let bytes = key.to_bytes();
        if bytes[0] == 0 {
            OpenScheme.verify_user(key, message, signature)
        } else {
            accepts_lms(&bytes, message, signature)
        }
    }

    #[tactic(auto, unfolding(crate::specs::Use::peer_accepts))]
    fn verify_namespace(&self, key: &NamespaceKey, message: &[u8], signature: &[u8]) -> bool {
        let bytes = key.to_bytes();
        if bytes[0] == 0 {
            OpenScheme.verify_namespace(key, message, signature)
        } else {
            accepts_lms(&bytes, message, signature)
        }
    }

    fn is_communal(&self, key: &NamespaceKey) -> bool {
        OpenScheme.is_communal(key)
    }
}

impl VerifyMany for PeerScheme {
    fn verify_users(&self, alloc: Global, claims: &[Claim<'_>]) -> Result<Vec<bool>, NoMemory> {
        verify_together(self, alloc, claims)
    }

    ghost alike = { λ key message signature. refl };
}

impl Scheme for PeerScheme {}
