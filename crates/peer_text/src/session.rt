//! The texts of how sessions end.

ghost use Rattle.std.specs.Prelude.{◌≡◌, ◌++◌, IfOk, OnErr, OnOk};
ghost use Rattle.std.specs.String.{string_bytes};
ghost use Rattle.peer_text.specs.Sessions.{core_refusal_text, hello_refusal_text, session_end_text};

use crate::refusals::chain_text;
use session_end::{HelloRefusal, SessionEnd};
use spelling::{NoMemory, put_bytes};
use std::alloc::Global;
use sync_msg::CoreRefusal;

/// Appends the text of a session's end to `out`: `read fault`, `write fault`, `log full` or `no memory`; or `session
/// refused: ` and the name of the refusal, behind which stand, after a space, the offset of `ClosedEarly` and
/// `BadMessage`, and why the capability of `Chain` is not valid. There is no newline. Without memory `out` stays as it
/// was.
pub fn session_end_text(end: &SessionEnd, out: &mut Vec<u8>) -> Result<(), NoMemory>
    ensures appended { OnOk result (out.new.items ≡ out.old.items ++ session_end_text end.now) }
    ensures kept { OnErr result (out.new.items ≡ out.old.items) }
{
    let text = text_of(*out.allocator(), end)?;
    put_bytes(out, text.as_bytes())
}

// The text of a session's end.
fn text_of(alloc: Global, end: &SessionEnd) -> Result<String, NoMemory>
    ensures { IfOk result (λ text. string_bytes text ≡ session_end_text end.now) }
{
    match end {
        SessionEnd::LinkRead => Ok(String::from_str(alloc, "read fault")?),
        SessionEnd::LinkWrite => Ok(String::from_str(alloc, "write fault")?),
        SessionEnd::LogFull { .. } => Ok(String::from_str(alloc, "log full")?),
        SessionEnd::NoMemory => Ok(String::from_str(alloc, "no memory")?),
        SessionEnd::ClosedEarly { at } => Ok(format!(in alloc;
            "session refused: ClosedEarly {at}"
        )?),
        SessionEnd::BadMessage { at } => Ok(format!(in alloc; "session refused: BadMessage {at}")?),
        SessionEnd::SignFault => Ok(String::from_str(alloc, "session refused: SignFault")?),
        SessionEnd::Hello(refusal) => {
            let text = hello_text(alloc, *refusal)?;
            Ok(format!(in alloc; "session refused: {text}")?)
        }
        SessionEnd::Core(refusal) => {
            let text = core_text(*refusal);
            Ok(format!(in alloc; "session refused: {text}")?)
        }
    }
}

// The text of why a hello or a proof is refused.
fn hello_text(alloc: Global, refusal: HelloRefusal) -> Result<String, NoMemory>
    ensures { IfOk result (λ text. string_bytes text ≡ hello_refusal_text refusal) }
{
    let name = match refusal {
        HelloRefusal::VersionUnknown => "VersionUnknown",
        HelloRefusal::WrongNamespace => "WrongNamespace",
        HelloRefusal::NotRead => "NotRead",
        HelloRefusal::Chain(refusal) => {
            let text = chain_text(alloc, refusal)?;
            return Ok(format!(in alloc; "Chain {text}")?);
        }
        HelloRefusal::AskOutsideGrant => "AskOutsideGrant",
        HelloRefusal::BadProof => "BadProof",
    };
    Ok(String::from_str(alloc, name)?)
}

// The text of why an item is refused.
fn core_text(refusal: CoreRefusal) -> &'static str
    ensures { result.now ≡ core_refusal_text refusal }
{
    match refusal {
        CoreRefusal::BadCut => "BadCut",
        CoreRefusal::ItemMismatch => "ItemMismatch",
        CoreRefusal::EntryOutside => "EntryOutside",
        CoreRefusal::RowsOutOfOrder => "RowsOutOfOrder",
        CoreRefusal::TooManyItems { .. } => "TooManyItems",
    }
}
