//! What stands behind sessions: the image of the log is put, unless memory was wanting.

ghost use Rattle.std.specs.Prelude.{◌≡◌, ◌↔◌, map, IfOk, IsTrue};
ghost use Rattle.std.specs.List.{AllByRecursion};
ghost use Rattle.willow_entry.specs.Frame.{HasFrame};
ghost use Rattle.auth_entry.specs.Rows.{entry_row};
ghost use Rattle.peer_stage.specs.Faults.{CountsStep};
ghost use Rattle.peer_stage.specs.Shelves.{PutsBytes};
ghost use Rattle.peer_run.specs.Closing.{IsForWant, counts_of, image_of, put_end};

use auth_entry::AuthorisedEntry;
use block_store::Snapshot;
use lms_core::PeerScheme;
use ns_state::NsState;
use peer_image::write_image;
use peer_stage::SessionCounts;
use spelling::NoMemory;
use std::alloc::Global;
use sync_link::{SessionEnd, SessionReport};
use willow_outside::{Fault, Shelf};

/// Whether memory was wanting in the session.
pub(crate) fn wants_memory(end: &Result<SessionReport, SessionEnd>) -> bool
    ensures { IsTrue result ↔ IsForWant end.now }
{
    match end {
        Ok(_) => false,
        Err(SessionEnd::NoMemory) => true,
        Err(
            SessionEnd::LinkRead
            | SessionEnd::LinkWrite
            | SessionEnd::ClosedEarly { .. }
            | SessionEnd::BadMessage { .. }
            | SessionEnd::Hello(_)
            | SessionEnd::Core(_)
            | SessionEnd::SignFault
            | SessionEnd::LogFull { .. },
        ) => false,
    }
}

/// Whether the image was put under the name: where it was not, writing failed.
pub(crate) fn put_image<H: Shelf>(shelf: &mut H, name: &str, image: &[u8]) -> Result<bool, NoMemory>
    ensures puts { PutsBytes name.now image.now (H.facts shelf.old) (H.facts shelf.new) (put_end result) }
    ensures read_faults { (H.facts shelf.new).read_faults ≡ (H.facts shelf.old).read_faults }
    ensures write_faults { CountsStep (H.facts shelf.old).write_faults (H.facts shelf.new).write_faults (put_end result) }
{
    match shelf.put(name, image) {
        Ok(()) => Ok(true),
        Err(Fault::Failed) => Ok(false),
        Err(Fault::NoMemory) => Err(NoMemory),
    }
}

/// The image of what is live of a log.
pub(crate) fn image_of(
    alloc: Global,
    state: &NsState<AuthorisedEntry<PeerScheme>>,
) -> Result<Vec<u8>, NoMemory>
    ensures { IfOk result (λ bytes. bytes.items ≡ image_of state.now) }
{
    let snapshot = state.snapshot()?;
    known_rows(&snapshot);
    write_image(alloc, &state.namespace(), &snapshot)
}

// Does nothing: it is called for its clause, that frames carry the rows.
fn known_rows(rows: &Snapshot<AuthorisedEntry<PeerScheme>>)
    ensures { AllByRecursion HasFrame (map entry_row rows.now) }
{
    for at in 0..rows.len() {
        match rows.get(at) {
            None => unreachable!(),
            Some(row) => {
                let _row = row.row();
            }
        }
    }
}

/// The numbers that are told of a session.
pub(crate) fn counts_of(report: &SessionReport) -> SessionCounts
    ensures { result ≡ counts_of report.now }
{
    SessionCounts {
        opened: report.opened,
        closed: report.closed,
        stored: report.stored,
        kept: report.kept,
        refused: report.refused,
        sent: report.sent,
        read: report.read,
    }
}
