//! Hellos, read from the front of bytes that come a few at a time.

ghost use Rattle.std.specs.Prelude.{◌≡◌, IsErrOf, OnErr};
ghost use Rattle.spelling.specs.Reading.{Gives, NeedsNoMemory};
ghost use Rattle.spelling.specs.declared.input.Unread.TheVariants as unread;
ghost use Rattle.sync_msg.specs.ItemReading.{body_at};
ghost use Rattle.sync_hello.specs.HelloReading.{draft_at, GivesHello, ReadsText};
ghost use Rattle.sync_hello.specs.Memory.{HelloAsks};
ghost use Rattle.sync_hello.specs.HelloSteps.{IsInFront, ReadsHello};

use crate::hello::Hello;
use cap_codec::decode_capability;
use mc_cap::Capability;
use spelling::{End, Input, NoMemory, NotHere, Unread};
use std::alloc::Global;
use willow_area::{Area, read_area};
use willow_entry::MAX_FRAME;

/// What is answered to bytes that may be the beginning of a hello.
#[derive(Drop)]
pub enum HelloStep {
    /// A hello stands in front.
    Whole {
        /// The hello.
        hello: Hello,
        /// How many bytes spell it.
        taken: usize,
    },
    /// The bytes are a proper beginning of a hello.
    More,
    /// The bytes are no proper beginning of a hello, and none stands in front of them.
    Bad,
}

/// The hello at the front of the bytes. `More` is answered exactly where the bytes are a proper beginning of a hello,
/// and `Bad` exactly where they are no such beginning and no hello stands in front. The bytes are judged one by one,
/// but those of the capability once they are all there. Whether the hello is refused is not judged. Memory is asked for
/// behind the path of the ask.
pub fn read_hello(alloc: Global, bytes: &[u8]) -> Result<HelloStep, NoMemory>
    ensures reads { ReadsHello bytes.now result }
    ensures asked { OnErr result (HelloAsks bytes.now) }
{
    match hello_in_front(alloc, bytes) {
        Ok((hello, taken)) => Ok(HelloStep::Whole { hello, taken }),
        Err(Unread::Part) => Ok(HelloStep::More),
        Err(Unread::Wrong) => Ok(HelloStep::Bad),
        Err(Unread::NoMemory) => Err(NoMemory),
    }
}

// The hello at the front of the bytes, with the number of its bytes.
fn hello_in_front(alloc: Global, bytes: &[u8]) -> Result<(Hello, usize), Unread>
    ensures front { IsInFront bytes.now result }
    ensures asked { IsErrOf result unread.NoMemory → HelloAsks bytes.now }
{
    let mut input = Input::new(bytes);
    let hello = read_whole(alloc, &mut input)?;
    Ok((hello, input.taken_of(bytes)))
}

// Reads a hello, and its capability once all the bytes of that are there.
fn read_whole(alloc: Global, input: &mut Input) -> Result<Hello, Unread>
    ensures gives { GivesHello result input.new (draft_at input.old) }
    ensures asked { IsErrOf result unread.NoMemory → HelloAsks input.old }
{
    let draft = read_draft(alloc, input)?;
    let capability = whole_capability(alloc, draft.text)?.ok_or(Unread::Wrong)?;
    Ok(Hello {
        version: draft.version,
        nonce: draft.nonce,
        ask: draft.ask,
        capability,
    })
}

// A hello before its capability is read.
#[derive(Drop)]
struct Draft<'a> {
    version: u8,
    nonce: [u8; 16],
    ask: Area,
    text: &'a [u8],
}

// Reads a hello up to the bytes of its capability, and takes those as they are.
#[tactic(auto, unfolding(crate::specs::HelloReading::draft_at))]
fn read_draft<'a>(alloc: Global, input: &mut Input<'a>) -> Result<Draft<'a>, Unread>
    ensures gives { Gives (λ d. record { version = d.version; nonce = d.nonce; ask = d.ask; text = d.text.now }) result input.new (draft_at input.old) }
    ensures asked { IsErrOf result unread.NoMemory → HelloAsks input.old }
{
    input.exactly(b"WSY")?;
    let version = input.byte()?;
    let nonce: [u8; 16] = input.array()?;
    let ask = read_area(alloc, input)?;
    let text = read_text(input)?;
    Ok(Draft {
        version,
        nonce,
        ask,
        text,
    })
}

// Reads the length of a capability, and so many bytes.
#[tactic(auto, unfolding(sync_msg::specs::ItemReading::body_at, spelling::specs::Reading::text_at))]
fn read_text<'a>(input: &mut Input<'a>) -> Result<&'a [u8], Unread>
    ensures gives { Gives (λ text. text.now) result input.new (body_at input.old) }
    ensures sure { NeedsNoMemory result }
{
    let len = input.number_u32_up_to(MAX_FRAME as u32)? as usize;
    input.slice(len)
}

// The capability that all the bytes spell, if they spell one.
fn whole_capability(alloc: Global, text: &[u8]) -> Result<Option<Capability>, NoMemory>
    ensures { ReadsText text.now result }
{
    match decode_capability(alloc, text) {
        Ok((capability, taken)) => {
            if taken == text.len() {
                Ok(Some(capability))
            } else {
                Ok(None)
            }
        }
        Err(End::Refused(NotHere)) => Ok(None),
        Err(End::NoMemory) => Err(NoMemory),
    }
}
