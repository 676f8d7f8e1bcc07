//! Whether a capability is valid.

ghost use Rattle.std.specs.Prelude.{◌≡◌, ◌++◌, ◌+◌, ◌∷◌, [], ◌<◌, ◌≤◌, length, None, OnErr, OnOk, IsErrOf};
ghost use Rattle.spelling.specs.declared.ending.End.TheVariants as ends;
ghost use Rattle.spelling.specs.Answers.{Judges, first_some};
ghost use Rattle.willow_area.specs.AreaSpelling.{area_spelling};
ghost use Rattle.mc_cap.specs.Forms.{delegation_spelling, head_spelling};
ghost use Rattle.mc_cap.specs.Grant.{first_grant};
ghost use Rattle.mc_cap.specs.Valid.{beginning_refusal, chain_refusal, handing_refusal, start_refusal, step_refusal};

use crate::capability::Capability;
use crate::chain::Delegation;
use crate::messages::{initial_message, spell_handing, spell_signature};
use scheme_core::Verify;
use willow_area::Area;
use willow_path::{End, UserKey};

/// The most delegations of a valid capability.
pub const MAX_DELEGATIONS: usize = 16;

/// Why a capability is not valid. Delegations are counted from 1.
#[derive(Clone, Copy, Debug, PartialEq, Eq)]
pub enum ChainRefusal {
    /// It is communal and its namespace is not.
    NotCommunal,
    /// It is owned and its namespace is communal.
    NotOwned,
    /// The namespace did not sign the initial message.
    BadInitial,
    /// The area of this delegation is not within what was granted before.
    AreaGrows { at: u8 },
    /// The receiver before this delegation did not sign its handover.
    BadSignature { at: u8 },
    /// There are more than `MAX_DELEGATIONS` delegations.
    TooManyDelegations,
}

impl Capability {
    /// Whether the capability is valid by the rules of the scheme (Meadowcap): it has at most
    /// `MAX_DELEGATIONS` delegations; it is communal exactly where its namespace is; where it is owned,
    /// the namespace signed the initial message; and for each delegation the area granted before includes
    /// its area, and the receiver before it signed the handover. It is refused with the first of these
    /// that fails, in this order, the delegations one after the other. Only delegations need memory.
    #[tactic(auto, unfolding(crate::specs::Valid::chain_refusal, crate::specs::Valid::beginning_refusal))]
    pub fn check<S: Verify>(&self, scheme: &S) -> Result<(), End<ChainRefusal>>
        ensures answer { Judges result (chain_refusal S.rules self.now) }
        ensures begun { IsErrOf result ends.NoMemory → beginning_refusal S.rules self.now ≡ None }
        ensures handed_on { IsErrOf result ends.NoMemory → 0 < length self.now.chain }
    {
        if self.chain.len() > MAX_DELEGATIONS {
            return Err(End::Refused(ChainRefusal::TooManyDelegations));
        }
        if let Some(refusal) = self.start_refusal(scheme) {
            return Err(End::Refused(refusal));
        }
        self.check_chain(scheme)
    }

    // Why the capability cannot even begin.
    #[tactic(auto, unfolding(crate::specs::Valid::start_refusal))]
    fn start_refusal<S: Verify>(&self, scheme: &S) -> Option<ChainRefusal>
        ensures { result ≡ start_refusal S.rules self.now }
    {
        let communal = scheme.is_communal(&self.namespace);
        match &self.initial {
            None if communal => None,
            None => Some(ChainRefusal::NotCommunal),
            Some(_) if communal => Some(ChainRefusal::NotOwned),
            Some(signature) => {
                let message = initial_message(self.mode, &self.user);
                if scheme.verify_namespace(&self.namespace, &message, signature.as_slice()) {
                    None
                } else {
                    Some(ChainRefusal::BadInitial)
                }
            }
        }
    }

    // Checks the delegations one after the other.
    #[tactic(auto, unfolding(spelling::specs::Answers::first_some))]
    fn check_chain<S: Verify>(&self, scheme: &S) -> Result<(), End<ChainRefusal>>
        requires { length self.now.chain ≤ MAX_DELEGATIONS }
        ensures answer { Judges result (first_some (step_refusal S.rules self.now) 0 self.now.chain) }
        ensures handed_on { IsErrOf result ends.NoMemory → 0 < length self.now.chain }
    {
        if self.chain.as_slice().is_empty() {
            return Ok(());
        }
        let mut message = self.begin_handover()?;
        let count_at = message.len() - 1;
        self.check_delegations(scheme, &self.first_grant(), &mut message, count_at)
    }

    // Checks the delegations, of which the first hands on this area. The message is the letter H and the
    // capability without delegations. It grows by each delegation, and their number stands in one byte.
    fn check_delegations<'a, S: Verify>(
        &'a self,
        scheme: &S,
        first: &'a Area,
        message: &mut Vec<u8>,
        count_at: usize,
    ) -> Result<(), End<ChainRefusal>>
        requires few { length self.now.chain ≤ MAX_DELEGATIONS }
        requires first { first.now ≡ first_grant self.now }
        requires message { message.old.items ≡ (72 ∷ head_spelling self.now) ++ 0 ∷ [] }
        requires place { count_at ≡ length (head_spelling self.now) + 1 }
        ensures { Judges result (first_some (step_refusal S.rules self.now) 0 self.now.chain) }
    {
        let mut grant = first;
        let mut receiver = &self.user;
        let mut count = 0;
        for next in self.chain.as_slice() {
            count += 1;
            check_handing(scheme, grant, receiver, message, count, next)?;
            message[count_at] = count;
            grant = &next.area;
            receiver = &next.user;
        }
        Ok(())
    }
}

// Checks that the receiver of an area hands it on by a delegation, whose place is `at`. The message so
// far is the letter H and the capability before it; where all is well, the delegation is appended.
fn check_handing<S: Verify>(
    scheme: &S,
    grant: &Area,
    receiver: &UserKey,
    message: &mut Vec<u8>,
    at: u8,
    next: &Delegation,
) -> Result<(), End<ChainRefusal>>
    ensures answer { Judges result (handing_refusal S.rules grant.now receiver.now (message.old.items ++ (area_spelling next.now.area ++ next.now.user)) at next.now) }
    ensures grown { OnOk result (message.new.items ≡ message.old.items ++ delegation_spelling next.now) }
{
    if !grant.includes_area(&next.area) {
        return Err(End::Refused(ChainRefusal::AreaGrows { at }));
    }
    spell_handing(&next.area, &next.user, message)?;
    if !scheme.verify_user(receiver, message, next.signature.as_slice()) {
        return Err(End::Refused(ChainRefusal::BadSignature { at }));
    }
    spell_signature(&next.signature, message)?;
    Ok(())
}
