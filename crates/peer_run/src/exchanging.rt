//! Two logs that exchange their rows.

ghost use Rattle.std.specs.Prelude.{◌≡◌, ◌≤◌, List, length, map, All, IfOk};
ghost use Rattle.willow_entry.specs.Frame.{HasFrame};
ghost use Rattle.willow_entry.specs.Row.{RowValue};
ghost use Rattle.peer_rows.specs.RowLogs.{HasTaken};
ghost use Rattle.ns_state.specs.Log.{IsLog};
ghost use Rattle.ns_state.specs.declared.live_log.TheConstants.{LOG_LIMIT};
ghost use Rattle.auth_entry.specs.Rows.{entry_row};
ghost use Rattle.peer_rows.specs.Logged.{live_rows, stored_rows};
ghost use Rattle.peer_run.specs.Exchanged.{Exchanges, Takes, boxed};
ghost use Rattle.peer_run.specs.Offered.{offer};

use area_interest::{Interest, offered};
use auth_entry::AuthorisedEntry;
use block_store::Snapshot;
use lms_core::PeerScheme;
use ns_state::LogFull;
use peer_rows::{EntryLog, offer_rows};
use spelling::{End, NoMemory};
use std::alloc::Global;
use std::thread::Threads;
use store_threads::hash_both;
use sync_hello::HIGHEST_VERSION;
use sync_pair::{PairRun, meet_rows};
use willow_area::Area;

/// What became of the rows that came to a side.
#[derive(Clone, Copy)]
pub(crate) struct Came {
    pub(crate) stored: u64,
    pub(crate) kept: u64,
}

/// What two sides said, and what became of the rows that came to each.
#[derive(Drop)]
pub(crate) struct Exchanged {
    pub(crate) turns: Vec<Vec<u8>>,
    pub(crate) items: u32,
    pub(crate) left: Came,
    pub(crate) right: Came,
}

/// Hashes the live rows of two logs in threads, where they are many, for the exchange that comes next.
pub(crate) fn hash_logs<R: Threads + Sync>(
    rt: &R,
    alloc: Global,
    left: &EntryLog,
    right: &EntryLog,
) {
    hash_both(rt, alloc, left.store(), right.store());
}

/// Lets two logs exchange what they offer of their rows over the area that both sides may read, in the version that this program
/// speaks, the left one first, and take what comes.
pub(crate) fn exchange(
    alloc: Global,
    left: &mut EntryLog,
    right: &mut EntryLog,
    area: &Option<Area>,
    limits: &Interest,
) -> Result<Exchanged, End<LogFull>>
    requires one_namespace { right.old.namespace ≡ left.old.namespace }
    requires left_frames { All HasFrame (live_rows left.old) }
    requires right_frames { All HasFrame (live_rows right.old) }
    ensures { (a b : List RowValue) → HasTaken entry_row a left.old → HasTaken entry_row b right.old → Exchanges a b (boxed area.now) limits.now left.new right.new result }
{
    let left_rows = offer_of(alloc, left, area, limits)?;
    let right_rows = offer_of(alloc, right, area, limits)?;
    let run = meet_rows(
        alloc,
        HIGHEST_VERSION,
        &left_rows,
        &right_rows,
        area.as_ref(),
    )?;
    let PairRun {
        turns,
        to_left,
        to_right,
        items,
    } = run;
    let left = take(left, to_left)?;
    let right = take(right, to_right)?;
    Ok(Exchanged {
        turns,
        items,
        left,
        right,
    })
}

// What a side offers of the live rows of its log, where both may read this area, if there is one. No row is copied.
fn offer_of(
    alloc: Global,
    log: &EntryLog,
    area: &Option<Area>,
    limits: &Interest,
) -> Result<Snapshot<AuthorisedEntry<PeerScheme>>, NoMemory>
    ensures log { IsLog entry_row log.now.namespace log.now.log }
    ensures offers { IfOk result (λ rows. map entry_row rows ≡ offer limits.now (boxed area.now) (live_rows log.now)) }
    ensures few { IfOk result (λ rows. length rows ≤ LOG_LIMIT) }
{
    let snapshot = log.snapshot()?;
    match area {
        None => Ok(snapshot),
        Some(area) => offered(alloc, &snapshot, area, limits),
    }
}

// Offers the rows that came to a log.
fn take(log: &mut EntryLog, rows: Vec<AuthorisedEntry<PeerScheme>>) -> Result<Came, End<LogFull>>
    requires { All (λ (row : RowValue). row.entry.namespace ≡ log.old.namespace) (stored_rows rows.items) }
    ensures { (seen : List RowValue) → HasTaken entry_row seen log.old → Takes seen (stored_rows rows.items) log.new result }
{
    let count = rows.len() as u64;
    let before = log.front();
    offer_rows(log, rows)?;
    let stored = u64::from(log.front() - before);
    Ok(Came {
        stored,
        kept: count - stored,
    })
}
