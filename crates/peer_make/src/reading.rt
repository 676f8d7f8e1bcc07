//! Bytes that are to be one capability, be they the input or those of a name.

ghost use Rattle.std.specs.Prelude.{◌≤◌};
ghost use Rattle.peer_stage.specs.Faults.{CountsStep};
ghost use Rattle.peer_make.specs.Reading.{ReadsCapabilityFrom, ReadsOne};

use cap_codec::decode_capability;
use mc_cap::Capability;
use peer_stage::{INPUT_LIMIT, Origin, Stop, read_input};
use spelling::End;
use std::alloc::Global;
use willow_outside::Source;

/// The capability that all of the input is.
pub(crate) fn read_one<I: Source>(alloc: Global, input: &mut I) -> Result<Capability, Stop>
    ensures reads { ReadsOne (I.facts input.old) (I.facts input.new) result }
    ensures input_faults { CountsStep (I.facts input.old).faults (I.facts input.new).faults result }
    ensures input_ends { (I.facts input.old).ends ≤ (I.facts input.new).ends }
{
    let bytes = read_input(alloc, input, INPUT_LIMIT)?;
    capability_from(alloc, &bytes, Origin::Input)
}

/// The capability that the bytes are, with nothing behind it. Where they are none, that is told at 0 of where they came
/// from.
pub fn capability_from(alloc: Global, bytes: &[u8], origin: Origin) -> Result<Capability, Stop>
    ensures { ReadsCapabilityFrom origin bytes.now result }
{
    match decode_capability(alloc, bytes) {
        Ok((capability, taken)) => {
            if taken == bytes.len() {
                Ok(capability)
            } else {
                Err(Stop::BadInput { origin, at: 0 })
            }
        }
        Err(End::Refused(_)) => Err(Stop::BadInput { origin, at: 0 }),
        Err(End::NoMemory) => Err(Stop::NoMemory),
    }
}
