//! The texts of refusals.

ghost use Rattle.std.specs.Prelude.{◌≡◌, ◌++◌, IfOk, OnErr, OnOk};
ghost use Rattle.std.specs.String.{string_bytes};
ghost use Rattle.peer_text.specs.Refusals.{chain_refusal_text, row_refusal_text};

use mc_cap::{ChainRefusal, RowRefusal};
use spelling::{NoMemory, put_bytes};
use std::alloc::Global;

/// Appends the text of the refusal to `out`: its name; `Chain` has behind it, after a space, the name of
/// why the capability is not valid, and that, after a space, the decimal number of the delegation where
/// it has one. There is no newline. Without memory `out` stays as it was.
pub fn row_refusal_text(refusal: RowRefusal, out: &mut Vec<u8>) -> Result<(), NoMemory>
    ensures appended { OnOk result (out.new.items ≡ out.old.items ++ row_refusal_text refusal) }
    ensures kept { OnErr result (out.new.items ≡ out.old.items) }
{
    let text = text_of(*out.allocator(), refusal)?;
    put_bytes(out, text.as_bytes())
}

// The text of a row's refusal.
fn text_of(alloc: Global, refusal: RowRefusal) -> Result<String, NoMemory>
    ensures { IfOk result (λ text. string_bytes text ≡ row_refusal_text refusal) }
{
    let name = match refusal {
        RowRefusal::WrongNamespace => "WrongNamespace",
        RowRefusal::NotWrite => "NotWrite",
        RowRefusal::Chain(refusal) => {
            let text = chain_text(alloc, refusal)?;
            return Ok(format!(in alloc; "Chain {text}")?);
        }
        RowRefusal::OutsideGrant => "OutsideGrant",
        RowRefusal::BadEntrySignature => "BadEntrySignature",
    };
    Ok(String::from_str(alloc, name)?)
}

/// The text of why a capability is not valid.
pub(crate) fn chain_text(alloc: Global, refusal: ChainRefusal) -> Result<String, NoMemory>
    ensures { IfOk result (λ text. string_bytes text ≡ chain_refusal_text refusal) }
{
    match refusal {
        ChainRefusal::NotCommunal => Ok(String::from_str(alloc, "NotCommunal")?),
        ChainRefusal::NotOwned => Ok(String::from_str(alloc, "NotOwned")?),
        ChainRefusal::BadInitial => Ok(String::from_str(alloc, "BadInitial")?),
        ChainRefusal::AreaGrows { at } => Ok(format!(in alloc; "AreaGrows {at}")?),
        ChainRefusal::BadSignature { at } => Ok(format!(in alloc; "BadSignature {at}")?),
        ChainRefusal::TooManyDelegations => Ok(String::from_str(alloc, "TooManyDelegations")?),
    }
}
