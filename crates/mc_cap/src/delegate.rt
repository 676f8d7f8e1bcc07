//! How a capability is handed on.

ghost use Rattle.std.specs.Prelude.{◌≡◌, ◌<◌, ◌≤◌, length, None, IsErrOf, OnErr, OnOk};
ghost use Rattle.spelling.specs.Answers.{Judges};
ghost use Rattle.spelling.specs.declared.ending.End.TheVariants as ends;
ghost use Rattle.mc_cap.specs.Grant.{extended};
ghost use Rattle.mc_cap.specs.Valid.{chain_refusal};

use crate::capability::Capability;
use crate::chain::Delegation;
use crate::check::{ChainRefusal, MAX_DELEGATIONS};
use crate::signature::Signature;
use scheme_core::{MAX_SIGNATURE, Verify};
use willow_area::Area;
use willow_path::{End, UserKey};

impl Capability {
    /// Adds a delegation of the area to the user, signed by the receiver so far, exactly where the longer
    /// capability passes `check`; else that check's refusal is told, and the capability stays as it was.
    /// It needs a capability that passes `check`, and a signature of at most `MAX_SIGNATURE` bytes. One delegation too
    /// many is refused before any memory is asked for.
    #[tactic(auto, using(crate::proofs::Meaning::few_where_valid, crate::proofs::Meaning::too_many))]
    pub fn delegate<S: Verify>(
        &mut self,
        scheme: &S,
        area: Area,
        user: UserKey,
        signature: Vec<u8>,
    ) -> Result<(), End<ChainRefusal>>
        requires valid { chain_refusal S.rules self.old ≡ None }
        requires short { length signature.items ≤ MAX_SIGNATURE }
        ensures answer { Judges result (chain_refusal S.rules (extended self.old area user signature.items)) }
        ensures few { IsErrOf result ends.NoMemory → length self.old.chain < MAX_DELEGATIONS }
        ensures added { OnOk result (self.new ≡ extended self.old area user signature.items) }
        ensures kept { OnErr result (self.new ≡ self.old) }
    {
        if self.chain.len() >= MAX_DELEGATIONS {
            return Err(End::Refused(ChainRefusal::TooManyDelegations));
        }
        let signature = Signature::short(signature);
        self.chain.push(Delegation {
            area,
            user,
            signature,
        })?;
        let answer = self.check(scheme);
        if answer.is_err() {
            let _refused = self.chain.pop();
        }
        answer
    }
}
