//! Signatures as fields of capabilities.

ghost use Rattle.std.specs.Prelude.{◌≡◌, ◌<◌, ◌≤◌, length, IfOk, MatchOption};
ghost use Rattle.mc_cap.specs.Signature.{IsSignature};

use scheme_core::MAX_SIGNATURE;
use std::marker::Model;
use willow_path::NoMemory;

/// The bytes of a signature, at most `MAX_SIGNATURE`. A contract sees the list of the bytes.
#[derive(Drop)]
pub struct Signature {
    bytes: Vec<u8>,
}

impl Model for Signature {
    ghost use Rattle.std.specs.Prelude.{ℕ, ◌≤◌, List, length};
    ghost use Rattle.scheme_core.specs.declared.signer.TheConstants.{MAX_SIGNATURE};

    ghost Value = { List ℕ };

    ghost view = { λ s. s.bytes.items };

    ghost invariant = { λ s. length s.bytes.items ≤ MAX_SIGNATURE };
}

impl Signature {
    /// The signature of these bytes; None exactly where they are more than `MAX_SIGNATURE`.
    pub fn new(bytes: Vec<u8>) -> Option<Signature>
        ensures { MatchOption result (MAX_SIGNATURE < length bytes.items) (λ signature. (signature ≡ bytes.items) × IsSignature signature) }
    {
        if bytes.len() > MAX_SIGNATURE {
            return None;
        }
        Some(Signature { bytes })
    }

    /// The signature of these bytes, which are at most `MAX_SIGNATURE`.
    pub fn short(bytes: Vec<u8>) -> Signature
        requires { length bytes.items ≤ MAX_SIGNATURE }
        ensures { result ≡ bytes.items }
    {
        Signature { bytes }
    }

    /// The bytes.
    pub fn as_slice(&self) -> &[u8]
        ensures bytes { result.now ≡ self.now }
        ensures signature { IsSignature self.now }
    {
        let bytes: &[u8] = &self.bytes;
        bytes
    }

    /// The bytes, taken out.
    pub fn into_vec(self) -> Vec<u8>
        ensures bytes { result.items ≡ self }
        ensures signature { IsSignature self }
    {
        self.bytes
    }

    /// An equal signature.
    pub fn copy(&self) -> Result<Signature, NoMemory>
        ensures { IfOk result (λ signature. signature ≡ self.now) }
    {
        let bytes = Vec::from_slice(*self.bytes.allocator(), &self.bytes)?;
        Ok(Signature { bytes })
    }
}
