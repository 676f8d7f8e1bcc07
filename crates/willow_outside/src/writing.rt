//! Writing all of some bytes to a sink.

ghost use Rattle.willow_outside.specs.Counts.{CountsFault};
ghost use Rattle.willow_outside.specs.Whole.{GivesAll};

use crate::{Fault, Sink};

/// Writes all of `bytes` to `sink`. After a fault, which ends it, the sink holds a front of them more, but not all.
/// Where there are none the sink is not called.
pub fn write_whole<S: Sink>(sink: &mut S, bytes: &[u8]) -> Result<(), Fault>
    ensures bytes { GivesAll (S.facts sink.old).held (S.facts sink.new).held bytes.now result }
    ensures cause { CountsFault (S.facts sink.old).faults (S.facts sink.new).faults result }
{
    let mut at = 0;
    while at < bytes.len() {
        at += sink.write(&bytes[at..])?;
    }
    Ok(())
}
