//! The listing of what is live of a log: its lines are made on all processors where they are many, and written as they are
//! made, so that they never stand in memory all at once.

ghost use Rattle.std.specs.Prelude.{◌≡◌, ◌*◌, ◌<◌, drop, flat_map, map, IfOk};
ghost use Rattle.peer_listing.specs.Listing.{listing_head};
ghost use Rattle.peer_stage.specs.Faults.{CountsStep};
ghost use Rattle.peer_stage.specs.Stages.{WritesOutput};
ghost use Rattle.peer_rows.specs.Listed.{asked_rows, log_listing, row_line};
ghost use Rattle.auth_entry.specs.Rows.{entry_row};
ghost use Rattle.peer_rows.specs.Logged.{live_rows};
ghost use Rattle.peer_rows.specs.Shares.{AreShares};

use crate::images::EntryLog;
use crate::shares::{SHARE, SHARES, has_processors, write_shares};
use auth_entry::AuthorisedEntry;
use lms_core::PeerScheme;
use peer_listing::{listing_head, listing_line};
use peer_stage::{Stop, write_output};
use spelling::NoMemory;
use std::alloc::Global;
use std::thread::{Threads, map_chunks};
use willow_entry::Row;
use willow_outside::Sink;
use willow_path::NamespaceKey;

// The lines of a listing of so many rows are made by threads.
const MANY: usize = 2 * SHARE as usize;

// The lines of so many rows stand in memory at most.
const ROUND: usize = SHARES as usize * SHARE as usize;

/// Writes the head and the lines of the listing of the live rows that is asked for. The head counts the lines.
pub(crate) fn write_listing<R: Threads + Sync, O: Sink>(
    rt: &R,
    alloc: Global,
    newest: Option<u32>,
    log: &EntryLog,
    output: &mut O,
) -> Result<(), Stop>
    ensures writes { WritesOutput (O.facts output.old) (O.facts output.new) (log_listing newest log.now.namespace (live_rows log.now)) result }
    ensures faults { CountsStep (O.facts output.old).faults (O.facts output.new).faults result }
{
    let rows = asked_rows(alloc, newest, log)?;
    let head = head_of(alloc, &log.namespace(), rows.len() as u64)?;
    write_output(output, &head)?;
    write_lines(rt, alloc, &rows, output)
}

// The live rows that are asked for: the first so many by recency, or all where there are fewer; or all in order.
fn asked_rows(
    alloc: Global,
    newest: Option<u32>,
    log: &EntryLog,
) -> Result<Vec<&AuthorisedEntry<PeerScheme>>, NoMemory>
    ensures { IfOk result (λ rows. map (λ row. entry_row row.now) rows.items ≡ asked_rows newest (live_rows log.now)) }
{
    match newest {
        None => all_rows(alloc, log),
        Some(most) => log.newest(most),
    }
}

// All live rows, in order.
fn all_rows(alloc: Global, log: &EntryLog) -> Result<Vec<&AuthorisedEntry<PeerScheme>>, NoMemory>
    ensures { IfOk result (λ rows. map (λ row. entry_row row.now) rows.items ≡ live_rows log.now) }
{
    let store = log.store();
    let mut rows = Vec::with_capacity(alloc, store.len() as usize)?;
    let mut left = store.rows();
    'rows: while let Some(row) = left.next() {
        rows.push(row)?;
    }
    Ok(rows)
}

// Writes the lines of rows.
fn write_lines<R: Threads + Sync, O: Sink>(
    rt: &R,
    alloc: Global,
    rows: &[&AuthorisedEntry<PeerScheme>],
    output: &mut O,
) -> Result<(), Stop>
    ensures writes { WritesOutput (O.facts output.old) (O.facts output.new) (flat_map row_line rows.now) result }
    ensures faults { CountsStep (O.facts output.old).faults (O.facts output.new).faults result }
{
    let share = share_of(rt, rows.len());
    let mut made = 0;
    'rounds: while made < rows.len() {
        let (_, left) = rows.split_at(made);
        let (round, _) = left.split_at(left.len().min(ROUND));
        let shares = line_shares(rt, alloc, round, share)?;
        write_shares(&shares, output)?;
        made += round.len();
    }
    Ok(())
}

// The lines of how many rows are made together, in a listing of so many: a whole round, or where threads make them a share.
fn share_of(rt: &impl Threads, rows: usize) -> usize
    ensures { 0 < result }
{
    if rows >= MANY && has_processors(rt) {
        SHARE as usize
    } else {
        ROUND
    }
}

// The lines of rows, by shares of so many: each share is made on a thread of its own, where there is more than one.
fn line_shares<R: Threads + Sync>(
    rt: &R,
    alloc: Global,
    rows: &[&AuthorisedEntry<PeerScheme>],
    share: usize,
) -> Result<Vec<Result<Vec<u8>, NoMemory>>, NoMemory>
    requires { 0 < share }
    ensures { IfOk result (λ shares. AreShares (λ k. flat_map row_line (drop (k * share) rows.now)) shares.items) }
{
    let shares = map_chunks(
        rt,
        alloc,
        rows,
        share,
        &|_, part: &[&AuthorisedEntry<PeerScheme>]| -> Result<Vec<u8>, NoMemory>
            ensures { IfOk result (λ lines. lines.items ≡ flat_map row_line part.now) }
        { lines_of(alloc, part) },
    )?;
    Ok(shares)
}

// The lines of rows.
fn lines_of(alloc: Global, rows: &[&AuthorisedEntry<PeerScheme>]) -> Result<Vec<u8>, NoMemory>
    ensures { IfOk result (λ lines. lines.items ≡ flat_map row_line rows.now) }
{
    let mut lines = Vec::new(alloc);
    for row in rows {
        listing_line(row.entry(), &mut lines)?;
    }
    Ok(lines)
}

// The first line of a listing of so many rows.
fn head_of(alloc: Global, namespace: &NamespaceKey, rows: u64) -> Result<Vec<u8>, NoMemory>
    ensures { IfOk result (λ head. head.items ≡ listing_head namespace.now rows) }
{
    let mut head = Vec::new(alloc);
    listing_head(namespace, rows, &mut head)?;
    Ok(head)
}
