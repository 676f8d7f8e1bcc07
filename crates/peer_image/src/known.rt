//! What an image of version 2 tells before its rows: the namespace, and the capabilities.

ghost use Rattle.std.specs.Prelude.{◌≡◌, ◌↔◌, ◌<◌, [], ◌∷◌, ◌++◌, IfOk, IsErrOf, IsTrue, MatchOption, OnErr};
ghost use Rattle.spelling.specs.Reading.{Gives, NeedsNoMemory};
ghost use Rattle.spelling.specs.declared.ending.End.TheVariants as ends;
ghost use Rattle.mc_cap.specs.Forms.{capability_spelling};
ghost use Rattle.cap_codec.specs.Numbered.{CapabilityFrameAsks};
ghost use Rattle.peer_image.specs.ImageTwoParts.{TellsNext};
ghost use Rattle.peer_image.specs.ImageTwoReading.{AreRising, AreToldInFront, FirstIsWhole, HasNoHead, IsImageHead, head_two_spelling, head_two_at};

use cap_codec::{behind, decode_capability_frame};
use mc_cap::Capability;
use spelling::{End, Input, NoMemory, NotHere, Unread};
use std::alloc::Global;
use std::marker::Model;
use willow_path::{NamespaceKey, read_namespace_key};

/// How many bytes stand in front of a frame's bytes for their number.
const LENGTH: usize = 4;

/// What an image of version 2 tells first.
#[derive(Clone, Copy)]
pub struct ImageHead {
    /// The namespace.
    pub namespace: NamespaceKey,
    /// The number of the capabilities.
    pub count: u32,
}

/// The namespace key and the number of the capabilities behind the text WIM2, and the bytes behind these; None where they
/// do not stand in front.
pub fn image_two_head(bytes: &[u8]) -> Option<(ImageHead, &[u8])>
    ensures { MatchOption result (HasNoHead bytes.now) (λ found. IsImageHead found.0 × (bytes.now ≡ head_two_spelling found.0 ++ found.1.now)) }
{
    let mut input = Input::new(bytes);
    match read_head(&mut input) {
        Ok(head) => Some((head, input.front())),
        Err(_) => None,
    }
}

// The text WIM2, the key and the number behind it.
#[tactic(auto, unfolding(crate::specs::ImageTwoReading::head_two_at))]
fn read_head(input: &mut Input) -> Result<ImageHead, Unread>
    ensures gives { Gives (λ head. head) result input.new (head_two_at input.old) }
    ensures sure { NeedsNoMemory result }
{
    input.exactly(b"WIM2")?;
    Ok(ImageHead {
        namespace: read_namespace_key(input)?,
        count: input.number_u32()?,
    })
}

/// A capability that an image tells, with its spelling. A contract sees the capability.
#[derive(Drop)]
pub struct KnownCapability<'a> {
    capability: Capability,
    spelled: &'a [u8],
}

impl<'a> Model for KnownCapability<'a> {
    ghost use Rattle.std.specs.Prelude.{◌≡◌};
    ghost use Rattle.mc_cap.specs.Forms.{capability_spelling};
    ghost use Rattle.mc_cap.specs.declared.capability.Capability.{Capability};

    ghost Value = { Capability };

    ghost view = { λ k. k.capability };

    ghost invariant = { λ k. k.spelled.now ≡ capability_spelling k.capability };
}

impl<'a> KnownCapability<'a> {
    /// The capability.
    pub fn capability(&self) -> &Capability
        ensures { result.now ≡ self.now }
    {
        &self.capability
    }

    /// Its spelling.
    pub fn spelled(&self) -> &'a [u8]
        ensures { result.now ≡ capability_spelling self.now }
    {
        self.spelled
    }
}

/// The capabilities that are told in front of the bytes, at most so many, and the bytes behind them. Memory is asked for
/// where some are counted and the first frame has bytes and is whole.
pub fn capabilities_in_front<'a>(
    alloc: Global,
    bytes: &'a [u8],
    count: u32,
) -> Result<(Vec<KnownCapability<'a>>, &'a [u8]), NoMemory>
    ensures reads { IfOk result (λ read. AreToldInFront bytes.now count read.0.items read.1.now) }
    ensures asked { OnErr result ((0 < count) × FirstIsWhole bytes.now) }
{
    let mut told = Vec::new(alloc);
    let left = put_known(alloc, bytes, count, &mut told)?;
    Ok((told, left))
}

// Puts the capabilities that are told in front of the bytes, at most so many, where none are yet, and answers the bytes
// behind them. It does not own them, so that its many ends need not let them go.
fn put_known<'a>(
    alloc: Global,
    bytes: &'a [u8],
    count: u32,
    told: &mut Vec<KnownCapability<'a>>,
) -> Result<&'a [u8], NoMemory>
    requires none { told.old.items ≡ [] }
    ensures reads { IfOk result (λ left. AreToldInFront bytes.now count told.new.items left.now) }
    ensures asked { OnErr result ((0 < count) × FirstIsWhole bytes.now) }
{
    let mut left = bytes;
    'told: while told.len() < count as usize {
        let (capability, taken) = match next_capability(alloc, left, told) {
            Ok(read) => read,
            Err(End::Refused(NotHere)) => return Ok(left),
            Err(End::NoMemory) => return Err(NoMemory),
        };
        told.push(capability)?;
        left = behind(left, taken);
    }
    Ok(left)
}

// The capability that is told in front of the bytes and stands above those that are told before, with the number of bytes
// taken.
fn next_capability<'a>(
    alloc: Global,
    bytes: &'a [u8],
    told: &[KnownCapability<'a>],
) -> Result<(KnownCapability<'a>, usize), End<NotHere>>
    requires { AreRising told.now }
    ensures next { TellsNext told.now bytes.now result }
    ensures asked { IsErrOf result ends.NoMemory → CapabilityFrameAsks bytes.now }
{
    let (capability, taken) = decode_capability_frame(alloc, bytes)?;
    let spelled = &bytes[LENGTH..taken];
    let next = KnownCapability {
        capability,
        spelled,
    };
    if is_above(told, &next) {
        Ok((next, taken))
    } else {
        Err(End::Refused(NotHere))
    }
}

// Whether the capability stands above those that are told before it.
fn is_above(told: &[KnownCapability], next: &KnownCapability) -> bool
    requires { AreRising told.now }
    ensures { IsTrue result ↔ AreRising (told.now ++ next.now ∷ []) }
{
    match told.last() {
        Some(last) => last.spelled().cmp(next.spelled()).is_lt(),
        None => true,
    }
}
