//! The stages that commands share: reading the input and writing the output.

ghost use Rattle.std.specs.Prelude.{◌≤◌, ◌++◌, IsErrOf};
ghost use Rattle.peer_stage.specs.Faults.{CountsStep};
ghost use Rattle.peer_stage.specs.declared.outcome.Stop.TheVariants as stop;
ghost use Rattle.peer_stage.specs.Stages.{IsReadShort, ReadsInput, WritesOutput};

use crate::outcome::Stop;
use spelling::End;
use std::alloc::Global;
use willow_outside::{Fault, ReadEnd, Sink, Source, read_all, write_whole};

/// The greatest number of bytes that a command takes from the input.
pub const INPUT_LIMIT: u64 = 4_294_967_295;

/// All of the input, which has at most `limit` bytes. Where it has, or has more, no read failed, and want of memory is not
/// told of it.
pub fn read_input<I: Source>(alloc: Global, input: &mut I, limit: u64) -> Result<Vec<u8>, Stop>
    ensures reads { ReadsInput limit (I.facts input.old) (I.facts input.new) result }
    ensures memory { IsErrOf result stop.NoMemory → IsReadShort limit (I.facts input.old) (I.facts input.new) }
    ensures faults { CountsStep (I.facts input.old).faults (I.facts input.new).faults result }
    ensures ends { (I.facts input.old).ends ≤ (I.facts input.new).ends }
{
    match read_all(alloc, input, limit) {
        Ok(bytes) => Ok(bytes),
        Err(End::Refused(ReadEnd::Failed)) => Err(Stop::ReadFault),
        Err(End::Refused(ReadEnd::TooLong)) => Err(Stop::bad_input(limit)),
        Err(End::NoMemory) => Err(Stop::NoMemory),
    }
}

/// Writes all of the bytes. Where it did, no write failed; where there are none the output is not called.
pub fn write_output<O: Sink>(output: &mut O, bytes: &[u8]) -> Result<(), Stop>
    ensures writes { WritesOutput (O.facts output.old) (O.facts output.new) bytes.now result }
    ensures faults { CountsStep (O.facts output.old).faults (O.facts output.new).faults result }
{
    if bytes.is_empty() {
        return Ok(());
    }
    match write_whole(output, bytes) {
        Ok(()) => Ok(()),
        Err(Fault::Failed) => Err(Stop::WriteFault),
        Err(Fault::NoMemory) => Err(Stop::NoMemory),
    }
}

/// Writes all of both pieces, one behind the other, as if they were one: so that none is copied to join them.
pub fn write_both<O: Sink>(output: &mut O, first: &[u8], behind: &[u8]) -> Result<(), Stop>
    ensures writes { WritesOutput (O.facts output.old) (O.facts output.new) (first.now ++ behind.now) result }
    ensures faults { CountsStep (O.facts output.old).faults (O.facts output.new).faults result }
{
    write_output(output, first)?;
    write_output(output, behind)
}
