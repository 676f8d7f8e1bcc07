//! What is proved of signers and signatures as wholes.

ghost use Rattle.std.specs.Prelude.{◌≡◌, ℕ, ◌<◌, List, length, true, Option, AllPairs};
ghost use Rattle.lms_core.specs.declared.height.Height.{Height};
ghost use Rattle.lms_core.specs.Accepts.{leaves, lms_accepts};
ghost use Rattle.lms_core.specs.Calls.{Call, AreCalls, handed_out};
ghost use Rattle.lms_core.specs.Signer.{public_key, signature_of};

/// A law, and no code: the signature that a leaf makes of a message is accepted under the public key of its tree.
pub fn made_signatures_are_accepted()
    ensures { (height : Height) (id seed : List ℕ) (q : ℕ) (message : List ℕ) → length id ≡ 16 → q < leaves height
        → lms_accepts (public_key height id seed) message (signature_of height id seed q message) ≡ true }
{}

/// A law, and no code: over every list of calls of `reserve_keys` and `reserve_keys_on` for one name of one
/// shelf that tells what it holds, whatever each call answered, the indices of the signers handed out rise. So
/// no two signers have the same index.
pub fn indices_are_handed_out_once()
    ensures { (name : List ℕ) (held : Option (List ℕ)) (calls : List Call) → AreCalls name held calls
        → AllPairs (λ i j. i < j) (handed_out calls) }
{}
