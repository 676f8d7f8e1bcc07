//! Those who watch hear of the rows that come into the log of a server.

ghost use Rattle.std.specs.Prelude.{◌≡◌, ◌^◌, ◌<◌, ◌≤◌, [], ◌∷◌, length, drop, slice_get, Some, IfOk, IfErr, OnOk, OnErr};
ghost use Rattle.ns_cell.specs.Passes.{IsLater, IsPass, IsPassOf};
ghost use Rattle.willow_entry.specs.declared.row.LogRow.{LogRow};
ghost use Rattle.auth_entry.specs.Authorised.{AuthorisedValue};
ghost use Rattle.auth_entry.specs.Rows.{entry_row};
ghost use Rattle.sub_hub.specs.Hubs.{IsPumped, count_left};
ghost use Rattle.sub_hub.specs.Seen.{hub_seen};
ghost use Rattle.sync_link.specs.Kept.{log_rows};
ghost use Rattle.peer_run.specs.LogFiles.{IsAtIf, KeepsOnIf, StopsKeeping, file_states};
ghost use Rattle.peer_run.specs.Hearing.{rows_behind};

use crate::log_file::LogFile;
use crate::log_keeping::keep_rows;
use auth_entry::AuthorisedEntry;
use lms_core::PeerScheme;
use ns_cell::{NsCell, Pass};
use ns_state::NsState;
use spelling::NoMemory;
use std::slice;
use std::sync::Wait;
use sub_hub::Hub;
use willow_outside::Disk;

/// Reads what came into the log since the pass saw it last, keeps it in the log file where there is one, and tells those who watch
/// of it. Answers how many of them leave. For want of memory they are told nothing.
pub(crate) fn tell_new<R: Wait, K: Disk>(
    rt: &R,
    cell: &NsCell<AuthorisedEntry<PeerScheme>>,
    own: &mut Pass<AuthorisedEntry<PeerScheme>>,
    hub: &mut Hub,
    file: &mut Option<LogFile<K>>,
) -> Result<u32, NoMemory>
    requires pass { IsPassOf cell.now own.old }
    requires front { hub.old.front ≡ length own.old.seen }
    requires file { IsAtIf (length own.old.seen) (file_states K.facts file.old) }
    ensures later { IsLater own.old own.new }
    ensures own { own.new.own ≡ own.old.own }
    ensures pass { IsPass entry_row own.new }
    ensures told { IfOk result (λ left. IsPumped (hub_seen (λ w. told (w.vtable, w.value)) hub.old) (hub_seen (λ w. told (w.vtable, w.value)) hub.new)
        (rows_behind own.old.seen own.new.seen) left) }
    // so what all of these answer can be added up
    ensures few { IfOk result (λ left. count_left (hub_seen (λ w. told (w.vtable, w.value)) hub.new).members < 2 ^ 32) }
    ensures untold { IfErr result (λ e. hub_seen (λ w. told (w.vtable, w.value)) hub.new ≡ hub_seen (λ w. told (w.vtable, w.value)) hub.old) }
    ensures kept { OnOk result (KeepsOnIf (rows_behind own.old.seen own.new.seen) (file_states K.facts file.old) (file_states K.facts file.new)) }
    ensures stops { OnErr result (StopsKeeping (rows_behind own.old.seen own.new.seen) (file_states K.facts file.old) (file_states K.facts file.new)) }
{
    let rows = cell.read_log(rt, own, hub.front(), u32::MAX)?;
    keep_rows(file, &rows)?;
    let left = hub.pump(&rows);
    let _added = hub.added();
    Ok(left)
}

/// Tells those who watch of the rows of a log from the hub's front on, one by one, since no list of them can be made without
/// memory. Answers how many of them leave.
pub(crate) fn tell_rest(hub: &mut Hub, state: &NsState<AuthorisedEntry<PeerScheme>>) -> u32
    requires { hub.old.front ≤ length state.now.log }
    ensures told { IsPumped (hub_seen (λ w. told (w.vtable, w.value)) hub.old) (hub_seen (λ w. told (w.vtable, w.value)) hub.new)
        (log_rows (drop hub.old.front state.now.log)) result }
    ensures few { count_left (hub_seen (λ w. told (w.vtable, w.value)) hub.new).members < 2 ^ 32 }
{
    let front = state.front();
    let mut left = 0;
    let _added = hub.added();
    for at in hub.front()..front {
        left += tell_row(hub, state, at);
    }
    left
}

// Tells those who watch of the row of a log at the hub's front, which is this.
fn tell_row(hub: &mut Hub, state: &NsState<AuthorisedEntry<PeerScheme>>, at: u32) -> u32
    requires front { hub.old.front ≡ at }
    requires within { at < length state.now.log }
    ensures told { (row : LogRow AuthorisedValue) × (slice_get state.now.log at ≡ Some row) × IsPumped (hub_seen (λ w. told (w.vtable, w.value)) hub.old)
        (hub_seen (λ w. told (w.vtable, w.value)) hub.new) (log_rows (row ∷ [])) result }
    ensures few { count_left (hub_seen (λ w. told (w.vtable, w.value)) hub.new).members < 2 ^ 32 }
{
    let _front = state.front();
    let Some(row) = state.log_row(at) else {
        unreachable!()
    };
    let left = hub.pump(slice::from_ref(row));
    let _added = hub.added();
    left
}
