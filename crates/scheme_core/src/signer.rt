//! What makes signatures.

ghost use Rattle.std.specs.Prelude.{◌≡◌, ℕ, ◌≤◌, ◌↔◌, Bool, true, List, length, IfOk, OnErr, IsErrOf};
ghost use Rattle.spelling.specs.declared.ending.End.TheVariants as ends;
ghost use Rattle.scheme_core.specs.Signing.{CountsSigning};
ghost use Rattle.scheme_core.specs.declared.signer.TheConstants.{MAX_SIGNATURE};

use std::alloc::Global;
use willow_path::End;

/// The greatest number of bytes of a signature.
pub const MAX_SIGNATURE: usize = 1508;

/// Why nothing was signed.
#[derive(Clone, Copy, Debug, PartialEq, Eq)]
pub enum SignRefusal {
    /// Every signature of this signer is used up.
    Spent,
    /// The signer failed, as its count of faults shows.
    Failed,
}

/// What signs messages. Which signatures it may give is fixed with the value.
pub trait Signer: Drop {
    /// whether the signer may give this signature of this message
    ghost gives: { Self → List ℕ → List ℕ → Bool };
    /// how many signatures are left
    ghost left: { Self → ℕ };
    /// how often it failed
    ghost faults: { Self → ℕ };
    /// how the signer may stand behind one call
    ghost asks: { Self → Self → Type 0 };

    /// Signs a message. `Spent` comes exactly where nothing is left, `Failed` only where `faults` rose, and it rises
    /// nowhere else. After a refusal or want of memory the signer is as it was, its count of faults apart.
    fn sign(&mut self, alloc: Global, message: &[u8]) -> Result<Vec<u8>, End<SignRefusal>>
        ensures given { IfOk result (λ signature. gives self.old message.now signature.items ≡ true) }
        ensures short { IfOk result (λ signature. length signature.items ≤ MAX_SIGNATURE) }
        ensures same { gives self.new ≡ gives self.old }
        ensures spent { IsErrOf result (ends.Refused SignRefusal.Spent) ↔ (left self.old ≡ 0) }
        ensures counts { CountsSigning (faults self.old) (faults self.new) result }
        ensures kept { OnErr result (left self.new ≡ left self.old) }
        ensures asked { asks self.old self.new };

    /// How many signatures are left.
    fn left(&self) -> u64
        ensures { result ≡ left self.now };

    /// whatever the signer may give has at most MAX_SIGNATURE bytes
    ghost gives_short: { (s : Self) (message signature : List ℕ) → gives s message signature ≡ true → length signature ≤ MAX_SIGNATURE };
}
