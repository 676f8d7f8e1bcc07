//! The own hello of a side, judged before anything is compared.

ghost use Rattle.std.specs.Prelude.{◌≡◌};
ghost use Rattle.peer_run.specs.Greeting.{Greets, JudgesOwn, hello_of};

use lms_core::PeerScheme;
use mc_cap::Capability;
use peer_stage::Stop;
use peer_words::AreaWords;
use spelling::End;
use sync_hello::{HIGHEST_VERSION, Hello, HelloRefusal, check_hello};
use willow_area::Area;
use willow_path::NamespaceKey;

/// The hello of a side with a capability, which asks for the area of the words; a field without a word is that of what
/// the capability grants. It is refused as whoever reads it would refuse it in the namespace. Where the words and the
/// grant leave no times, it counts as one that asks for more than is granted.
pub(crate) fn greet(
    namespace: &NamespaceKey,
    words: &AreaWords,
    capability: Capability,
    nonce: [u8; 16],
) -> Result<Hello, Stop>
    ensures { Greets namespace.now words.now capability nonce result }
{
    match words.completed(capability.granted_area()?)? {
        Some(ask) => judge(namespace, hello_of(capability, ask, nonce)),
        None => {
            let granted = capability.granted_area()?;
            judge(namespace, hello_of(capability, granted, nonce))?;
            Err(Stop::SessionRefused(HelloRefusal::AskOutsideGrant))
        }
    }
}

// The hello with these fields.
fn hello_of(capability: Capability, ask: Area, nonce: [u8; 16]) -> Hello
    ensures { result ≡ hello_of capability ask nonce }
{
    Hello {
        version: HIGHEST_VERSION,
        nonce,
        ask,
        capability,
    }
}

// The hello, where nothing is against it.
fn judge(namespace: &NamespaceKey, hello: Hello) -> Result<Hello, Stop>
    ensures { JudgesOwn namespace.now hello result }
{
    match check_hello(&PeerScheme, namespace, &hello) {
        Ok(()) => Ok(hello),
        Err(End::Refused(refusal)) => Err(Stop::SessionRefused(refusal)),
        Err(End::NoMemory) => Err(Stop::NoMemory),
    }
}
