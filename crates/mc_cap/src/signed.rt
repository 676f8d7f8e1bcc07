//! What is signed of a capability, for those who verify many signatures by one call.

ghost use Rattle.std.specs.Prelude.{◌≡◌, ◌++◌, List, ℕ, map, take, OnErr, OnOk, vec_len};
ghost use Rattle.scheme_core.specs.Claims.{accepts_claim};
ghost use Rattle.scheme_core.specs.Rules.{Rules};
ghost use Rattle.mc_cap.specs.Signed.{handing_signings, initial_signings, signing_of, signings};

use crate::capability::Capability;
use crate::messages::{initial_message, spell_handing, spell_signature};
use scheme_core::Claim;
use willow_path::{NoMemory, UserKey};

/// A message of a capability, and a signature of it.
#[derive(Drop)]
pub struct SignedMessage<'a> {
    /// The key of who is said to have signed. One of a namespace has the bytes that a user's key can have.
    pub key: UserKey,
    /// What is signed.
    pub message: Vec<u8>,
    /// The signature.
    pub signature: &'a [u8],
}

impl SignedMessage<'_> {
    /// That the signature is to be verified. The message is not copied.
    pub fn claim(&self) -> Claim<'_>
        ensures { (rules : Rules) → accepts_claim rules result ≡ rules.user self.now.key self.now.message.items self.now.signature.now }
    {
        Claim {
            key: self.key,
            front: &[],
            rest: &self.message,
            signature: self.signature,
        }
    }
}

impl Capability {
    /// Appends what is signed of the capability (Meadowcap), in the order in which `check` asks for it: where it is owned,
    /// the initial message by the namespace; and for each delegation its handover by the receiver before it. These are at
    /// most `MAX_CHAIN` messages and one, and each handover has the spelling of the capability up to there; of a valid
    /// capability they are at most `MAX_DELEGATIONS` and one. Without memory `signed` stays as it was.
    pub fn put_signed<'a>(&'a self, signed: &mut Vec<SignedMessage<'a>>) -> Result<(), NoMemory>
        ensures told { OnOk result (map signing_of signed.new.items ≡ map signing_of signed.old.items ++ signings self.now) }
        ensures err { OnErr result (signed.new.items ≡ signed.old.items) }
    {
        let begun = signed.len();
        match self.put_each(signed) {
            Ok(()) => Ok(()),
            Err(NoMemory) => {
                signed.truncate(begun);
                Err(NoMemory)
            }
        }
    }

    // Appends the same, or without memory some of it.
    fn put_each<'a>(&'a self, signed: &mut Vec<SignedMessage<'a>>) -> Result<(), NoMemory>
        ensures told { OnOk result (map signing_of signed.new.items ≡ map signing_of signed.old.items ++ signings self.now) }
        ensures kept { take (vec_len signed.old) signed.new.items ≡ signed.old.items }
    {
        self.put_initial(signed)?;
        if self.chain.as_slice().is_empty() {
            return Ok(());
        }
        self.put_handovers(signed)
    }

    // Appends the initial message, where the capability is owned.
    fn put_initial<'a>(&'a self, signed: &mut Vec<SignedMessage<'a>>) -> Result<(), NoMemory>
        ensures told { OnOk result (map signing_of signed.new.items ≡ map signing_of signed.old.items ++ initial_signings self.now self.now.initial) }
        ensures kept { take (vec_len signed.old) signed.new.items ≡ signed.old.items }
    {
        if let Some(signature) = &self.initial {
            signed.push(SignedMessage {
                key: UserKey::from_bytes(self.namespace.to_bytes()).unwrap(),
                message: Vec::from_slice(
                    self.chain.allocator(),
                    &initial_message(self.mode, &self.user),
                )?,
                signature: signature.as_slice(),
            })?;
        }
        Ok(())
    }

    // Appends the handover of each delegation, or without memory of some. The message grows by one after the other.
    fn put_handovers<'a>(&'a self, signed: &mut Vec<SignedMessage<'a>>) -> Result<(), NoMemory>
        ensures told { OnOk result (map signing_of signed.new.items ≡ map signing_of signed.old.items ++ handing_signings self.now 0 self.now.chain) }
        ensures kept { take (vec_len signed.old) signed.new.items ≡ signed.old.items }
    {
        let mut message = self.begin_handover()?;
        let count_at = message.len() - 1;
        let mut receiver = &self.user;
        let mut count = 0;
        for next in self.chain.as_slice() {
            spell_handing(&next.area, &next.user, &mut message)?;
            signed.push(SignedMessage {
                key: *receiver,
                message: Vec::from_slice(self.chain.allocator(), &message)?,
                signature: next.signature.as_slice(),
            })?;
            spell_signature(&next.signature, &mut message)?;
            count += 1;
            message[count_at] = count;
            receiver = &next.user;
        }
        Ok(())
    }
}
