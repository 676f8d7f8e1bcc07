//! Writing to a link.

ghost use Rattle.std.specs.Prelude.{◌≡◌};
ghost use Rattle.willow_outside.specs.Counts.{CountsFault};
ghost use Rattle.willow_outside.specs.Told.{ExtendsAll};
ghost use Rattle.row_intake.specs.Links.{ReadsNothing};

use willow_outside::{Fault, Link};

/// Writes all of the bytes to the link. After a fault, which ends it, the link holds a front of them more, but not all.
/// Where there are none the link is not called.
pub fn send<L: Link>(link: &mut L, bytes: &[u8]) -> Result<(), Fault>
    ensures held { ExtendsAll (L.facts link.old).held (L.facts link.new).held bytes.now result }
    ensures cause { CountsFault (L.facts link.old).write_faults (L.facts link.new).write_faults result }
    ensures rest { ReadsNothing (L.facts link.old) (L.facts link.new) }
    ensures most { L.most link.new ≡ L.most link.old }
{
    let mut at = 0;
    while at < bytes.len() {
        at += link.write(&bytes[at..])?;
    }
    Ok(())
}
