//! Answers about hellos, in the words of the table.

use mc_cap::ChainRefusal;
use spelling::{End, NoMemory};
use std::alloc::{AllocError, Global};
use sync_hello::{HelloRefusal, HelloStep};

/// The word for what is answered to bytes.
pub(crate) fn step_word(
    alloc: Global,
    answer: Result<HelloStep, NoMemory>,
) -> Result<String, AllocError> {
    match answer {
        Ok(HelloStep::Whole { hello, taken }) => {
            let (version, nonce) = (hello.version, hello.nonce[0]);
            let start = hello.ask.times.start();
            let count = hello.capability.chain.len();
            format!(in alloc; "{version}.{nonce}.{start}.{count}:{taken}")
        }
        Ok(HelloStep::More) => String::from_str(alloc, "more"),
        Ok(HelloStep::Bad) => String::from_str(alloc, "bad"),
        Err(NoMemory) => String::from_str(alloc, "no memory"),
    }
}

/// The word for why a hello or a proof is refused, if it is.
pub(crate) fn refusal_word(
    alloc: Global,
    answer: Result<(), End<HelloRefusal>>,
) -> Result<String, AllocError> {
    match answer {
        Ok(()) => String::from_str(alloc, "passes"),
        Err(End::Refused(HelloRefusal::Chain(refusal))) => {
            let cause = chain_word(alloc, refusal)?;
            format!(in alloc; "Chain.{cause}")
        }
        Err(End::Refused(refusal)) => String::from_str(alloc, cause_word(refusal)),
        Err(End::NoMemory) => String::from_str(alloc, "no memory"),
    }
}

// The word for a cause that is not of the chain.
fn cause_word(refusal: HelloRefusal) -> &'static str {
    match refusal {
        HelloRefusal::VersionUnknown => "VersionUnknown",
        HelloRefusal::WrongNamespace => "WrongNamespace",
        HelloRefusal::NotRead => "NotRead",
        HelloRefusal::Chain(_) => "Chain",
        HelloRefusal::AskOutsideGrant => "AskOutsideGrant",
        HelloRefusal::BadProof => "BadProof",
    }
}

// The word for why a capability is not valid.
fn chain_word(alloc: Global, refusal: ChainRefusal) -> Result<String, AllocError> {
    match refusal {
        ChainRefusal::NotCommunal => String::from_str(alloc, "NotCommunal"),
        ChainRefusal::NotOwned => String::from_str(alloc, "NotOwned"),
        ChainRefusal::BadInitial => String::from_str(alloc, "BadInitial"),
        ChainRefusal::AreaGrows { at } => format!(in alloc; "AreaGrows.{at}"),
        ChainRefusal::BadSignature { at } => format!(in alloc; "BadSignature.{at}"),
        ChainRefusal::TooManyDelegations => String::from_str(alloc, "TooManyDelegations"),
    }
}
