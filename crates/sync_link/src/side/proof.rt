//! Proofs, read from the front of bytes that come a few at a time.

ghost use Rattle.sync_link.specs.Found.{FindsProof};

use cap_codec::read_signature;
use mc_cap::Signature;
use spelling::{Input, NoMemory, Unread};
use std::alloc::Global;

// What is answered to bytes that may be the beginning of a proof.
#[derive(Drop)]
pub(crate) enum ProofStep {
    // A signature stands in front, in so many bytes.
    Whole { signature: Signature, taken: usize },
    // The bytes are a proper beginning of one.
    More,
    // The bytes are none, and no beginning of one.
    Bad,
}

// The signature at the front of the bytes.
pub(crate) fn read_proof(alloc: Global, bytes: &[u8]) -> Result<ProofStep, NoMemory>
    ensures { FindsProof bytes.now result }
{
    let mut input = Input::new(bytes);
    match read_signature(alloc, &mut input) {
        Ok(signature) => Ok(ProofStep::Whole {
            signature,
            taken: input.taken_of(bytes),
        }),
        Err(Unread::Part) => Ok(ProofStep::More),
        Err(Unread::Wrong) => Ok(ProofStep::Bad),
        Err(Unread::NoMemory) => Err(NoMemory),
    }
}
