//! The rows that come into the log of a server are kept in its log file.

ghost use Rattle.std.specs.Prelude.{◌≡◌, ◌≤◌, ◌-◌, false, length, IfSome, OnOk, OnErr};
ghost use Rattle.std.specs.List.{AllByRecursion};
ghost use Rattle.cap_codec.specs.Rows.{IsRawRow};
ghost use Rattle.row_stream.specs.Streams.{IsStreamRow};
ghost use Rattle.peer_run.specs.LogFiles.{HasRoom, KeepsOn, KeepsOnIf, KeepsRest, StopsRest, WantsMemory, WantsMemoryIf, file_state, file_states, slice_values};

use crate::log_file::LogFile;
use auth_entry::AuthorisedEntry;
use cap_codec::RawRows;
use lms_core::PeerScheme;
use log_keeper::laws::slices_are_short;
use ns_state::NsState;
use spelling::{End, NoMemory};
use std::sync::Arc;
use willow_entry::LogRow;
use willow_outside::Disk;

// How many rows a slice has at most.
const SLICE: usize = 256;

/// Keeps these rows of the log in the file, where there is one, in slices of at most 256 rows. Where a write fails, nothing is
/// kept from then on, and none of that is told as want of memory. For want of memory the first of the rows may be kept.
pub(crate) fn keep_rows<K: Disk>(
    file: &mut Option<LogFile<K>>,
    rows: &[LogRow<Arc<AuthorisedEntry<PeerScheme>>>],
) -> Result<(), NoMemory>
    requires room { IfSome (file_states K.facts file.old) (HasRoom (length rows.now)) }
    ensures kept { OnOk result (KeepsOnIf (slice_values rows.now) (file_states K.facts file.old) (file_states K.facts file.new)) }
    ensures wants { OnErr result (WantsMemoryIf (slice_values rows.now) (file_states K.facts file.old) (file_states K.facts file.new)) }
{
    match file {
        Some(file) => file.keep(rows),
        None => Ok(()),
    }
}

/// Keeps the rows of the log that the file, where there is one, does not hold yet.
pub(crate) fn keep_rest<K: Disk>(
    file: &mut Option<LogFile<K>>,
    state: &NsState<AuthorisedEntry<PeerScheme>>,
) -> Result<(), NoMemory>
    requires room { IfSome (file_states K.facts file.old) (λ f. HasRoom (length state.now.log - f.front) f × (f.front ≤ length state.now.log)) }
    ensures kept { OnOk result (KeepsRest state.now.log (file_states K.facts file.old) (file_states K.facts file.new)) }
    ensures stops { OnErr result (StopsRest state.now.log (file_states K.facts file.old) (file_states K.facts file.new)) }
{
    match file {
        Some(file) => {
            let rows = state.read_log(file.front, u32::MAX)?;
            file.keep(&rows)
        }
        None => Ok(()),
    }
}

// Does nothing: it is called for its clause, that each row of a slice may stand in a log file.
fn known_slice(rows: &[LogRow<Arc<AuthorisedEntry<PeerScheme>>>])
    ensures { AllByRecursion (IsStreamRow IsRawRow) (slice_values rows.now) }
{
    for logged in rows {
        let _row = logged.row.row();
    }
}

impl<K: Disk> LogFile<K> {
    // Keeps rows of the log, slice by slice.
    fn keep(&mut self, rows: &[LogRow<Arc<AuthorisedEntry<PeerScheme>>>]) -> Result<(), NoMemory>
        requires room { HasRoom (length rows.now) (file_state K.facts self.old) }
        ensures kept { OnOk result (KeepsOn (slice_values rows.now) (file_state K.facts self.old) (file_state K.facts self.new)) }
        ensures wants { OnErr result (WantsMemory (slice_values rows.now) (file_state K.facts self.old) (file_state K.facts self.new)) }
    {
        let mut left = rows;
        while !left.is_empty() {
            let (slice, others) = left.split_at(left.len().min(SLICE));
            self.keep_slice(slice)?;
            left = others;
        }
        Ok(())
    }

    // Keeps a slice, unless a write failed before, or fails: neither of these is told as want of memory.
    fn keep_slice(
        &mut self,
        slice: &[LogRow<Arc<AuthorisedEntry<PeerScheme>>>],
    ) -> Result<(), NoMemory>
        requires some { 1 ≤ length slice.now }
        requires few { length slice.now ≤ 256 }
        requires room { HasRoom (length slice.now) (file_state K.facts self.old) }
        ensures kept { OnOk result (KeepsOn (slice_values slice.now) (file_state K.facts self.old) (file_state K.facts self.new)) }
        ensures same { OnErr result (file_state K.facts self.new ≡ file_state K.facts self.old) }
        ensures unbroken { OnErr result ((file_state K.facts self.old).broken ≡ false) }
    {
        let front = self.front + slice.len() as u32;
        if self.keeper.is_broken() {
            self.front = front;
            return Ok(());
        }
        self.keeper.known();
        known_slice(slice);
        slices_are_short::<RawRows>();
        match self.keeper.keep(slice) {
            Ok(held) => {
                self.front = front;
                self.kept = held;
                Ok(())
            }
            Err(End::Refused(_)) => {
                self.front = front;
                Ok(())
            }
            Err(End::NoMemory) => Err(NoMemory),
        }
    }
}
