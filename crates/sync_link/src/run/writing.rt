//! Writing to the link of a session.

ghost use Rattle.std.specs.Prelude.{◌≡◌};
ghost use Rattle.row_intake.specs.Links.{ReadsNothing};
ghost use Rattle.sync_link.specs.Writing.{CountsWrite, WritesFront};

use row_intake::send;
use session_end::SessionEnd;
use willow_outside::{Fault, Link};

// Writes all of the bytes to the link, or tells how the session ends.
pub(crate) fn write_all<L: Link>(link: &mut L, bytes: &[u8]) -> Result<(), SessionEnd>
    ensures held { WritesFront (L.facts link.old).held (L.facts link.new).held bytes.now result }
    ensures counts { CountsWrite (L.facts link.old).write_faults (L.facts link.new).write_faults result }
    ensures rest { ReadsNothing (L.facts link.old) (L.facts link.new) }
    ensures most { L.most link.new ≡ L.most link.old }
{
    match send(link, bytes) {
        Ok(()) => Ok(()),
        Err(Fault::Failed) => Err(SessionEnd::LinkWrite),
        Err(Fault::NoMemory) => Err(SessionEnd::NoMemory),
    }
}
