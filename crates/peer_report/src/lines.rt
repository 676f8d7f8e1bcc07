//! The report's lines for each end of a run.

ghost use Rattle.std.specs.Prelude.{◌≡◌, ◌<◌, ◌++◌, length, Some, Ok, Err, IfOk, OnOk, OnErr};
ghost use Rattle.peer_stage.specs.declared.outcome.Done.TheVariants as done;
ghost use Rattle.peer_stage.specs.declared.outcome.Stop.TheVariants as stop;
ghost use Rattle.peer_report.specs.Report.{report_of, stop_line, numbers_line, rows_line, shown_line, side_line, exchange_line, met_lines, first_line, session_line, counts_line, log_text, items_line, followed_line, left_line, kept_line, watched_lines, name_text, refused_line, bad_input_line, not_rising_line, pruned_line};

use crate::links::{hosted_lines, put_kept_line};
use mc_cap::{RefusedRow, RowRefusal};
use peer_stage::{
    Done, FollowCounts, JoinCounts, MeetCounts, Origin, SessionCounts, ShowCounts, SideCounts,
    Stop, Stopped, WatchCounts,
};
use peer_text::{row_refusal_text, session_end_text};
use session_end::SessionEnd;
use spelling::{NoMemory, put_byte, put_bytes};
use std::alloc::Global;

/// The report's lines for a run that ended so.
pub(crate) fn report_of(alloc: Global, end: &Result<Done, Stop>) -> Result<Vec<u8>, NoMemory>
    ensures text { IfOk result (λ text. text.items ≡ report_of end.now) }
    ensures some { OnErr result (0 < length (report_of end.now)) }
{
    match end {
        Ok(Done::Joined(counts)) => joined_lines(alloc, counts),
        Ok(Done::Shown(counts)) => shown_lines(alloc, counts),
        Ok(Done::Met(counts)) => met_lines(alloc, counts),
        Ok(Done::Hosted(hosted)) => hosted_lines(alloc, hosted),
        Ok(Done::Stopped(stopped)) => stopped_lines(alloc, stopped),
        Ok(Done::Watched(counts)) => watched_lines(alloc, counts),
        Ok(Done::Made) => Ok(Vec::new(alloc)),
        Err(stop) => stop_line(alloc, stop),
    }
}

// The numbers of a join, and the first refused row.
fn joined_lines(alloc: Global, counts: &JoinCounts) -> Result<Vec<u8>, NoMemory>
    ensures { IfOk result (λ text. text.items ≡ rows_line counts.now ++ first_line counts.now.first) }
{
    let JoinCounts {
        rows,
        stored,
        kept,
        refused,
        first,
    } = *counts;
    let mut text = numbers_line(alloc, rows, stored, kept, refused)?;
    put_first_line(alloc, first, &mut text)?;
    Ok(text)
}

// How many rows were read, and what came of them.
fn numbers_line(
    alloc: Global,
    rows: u64,
    stored: u64,
    kept: u64,
    refused: u64,
) -> Result<Vec<u8>, NoMemory>
    ensures { IfOk result (λ text. text.items ≡ numbers_line rows stored kept refused) }
{
    let line = format!(in alloc; "rows {rows} stored {stored} kept {kept} refused {refused}\n")?;
    Ok(line.into_bytes())
}

// The numbers of a watch, the watchers that left, and the first refused row.
fn watched_lines(alloc: Global, counts: &WatchCounts) -> Result<Vec<u8>, NoMemory>
    ensures { IfOk result (λ text. text.items ≡ watched_lines counts.now) }
{
    let WatchCounts {
        rows,
        stored,
        kept,
        refused,
        first,
        left,
    } = *counts;
    let mut text = numbers_line(alloc, rows, stored, kept, refused)?;
    put_left_line(alloc, left, &mut text)?;
    put_first_line(alloc, first, &mut text)?;
    Ok(text)
}

/// Appends how many watchers left, where one did.
pub(crate) fn put_left_line(alloc: Global, left: u32, text: &mut Vec<u8>) -> Result<(), NoMemory>
    ensures text { OnOk result (text.new.items ≡ text.old.items ++ left_line left) }
    ensures some { OnErr result (0 < length (left_line left)) }
{
    if left == 0 {
        return Ok(());
    }
    let line = format!(in alloc; "left {left}\n")?.into_bytes();
    put_bytes(text, &line)
}

// The numbers of a listing, and the first refused row.
fn shown_lines(alloc: Global, counts: &ShowCounts) -> Result<Vec<u8>, NoMemory>
    ensures { IfOk result (λ text. text.items ≡ shown_line counts.now ++ first_line counts.now.first) }
{
    let ShowCounts {
        rows,
        refused,
        first,
    } = *counts;
    let mut text = format!(in alloc; "rows {rows} refused {refused}\n")?.into_bytes();
    put_first_line(alloc, first, &mut text)?;
    Ok(text)
}

// The numbers of a meeting, and the first refused row.
fn met_lines(alloc: Global, counts: &MeetCounts) -> Result<Vec<u8>, NoMemory>
    ensures { IfOk result (λ text. text.items ≡ met_lines counts.now ++ first_line counts.now.first) }
{
    let mut text = side_line(alloc, "left", &counts.left)?;
    let right = side_line(alloc, "right", &counts.right)?;
    put_bytes(&mut text, &right)?;
    let exchange = exchange_line(alloc, counts.items, counts.turns)?;
    put_bytes(&mut text, &exchange)?;
    put_first_line(alloc, counts.first, &mut text)?;
    Ok(text)
}

// The numbers of one side of a meeting.
fn side_line(alloc: Global, name: &str, counts: &SideCounts) -> Result<Vec<u8>, NoMemory>
    ensures { IfOk result (λ text. text.items ≡ side_line name.now counts.now) }
{
    let SideCounts { rows, stored, kept } = *counts;
    let line = format!(in alloc; "{name} rows {rows} stored {stored} kept {kept}\n")?;
    Ok(line.into_bytes())
}

// The numbers of an exchange.
fn exchange_line(alloc: Global, items: u32, turns: u64) -> Result<Vec<u8>, NoMemory>
    ensures { IfOk result (λ text. text.items ≡ exchange_line items turns) }
{
    Ok(format!(in alloc; "items {items} turns {turns}\n")?.into_bytes())
}

/// The numbers of a session, or how else it ended.
pub(crate) fn ended_line(
    alloc: Global,
    session: &Result<SessionCounts, SessionEnd>,
) -> Result<Vec<u8>, NoMemory>
    ensures { IfOk result (λ text. text.items ≡ session_line session.now) }
{
    match session {
        Ok(counts) => counts_line(alloc, counts),
        Err(end) => end_line(alloc, end),
    }
}

// The numbers of a session.
fn counts_line(alloc: Global, counts: &SessionCounts) -> Result<Vec<u8>, NoMemory>
    ensures { IfOk result (λ text. text.items ≡ counts_line counts.now) }
{
    let mut text = log_text(alloc, counts)?;
    let rest = items_line(alloc, counts)?;
    put_bytes(&mut text, &rest)?;
    Ok(text)
}

// What of its rows came to the log.
fn log_text(alloc: Global, counts: &SessionCounts) -> Result<Vec<u8>, NoMemory>
    ensures { IfOk result (λ text. text.items ≡ log_text counts.now) }
{
    let SessionCounts {
        opened,
        closed,
        stored,
        kept,
        ..
    } = *counts;
    let text = format!(in alloc; "opened {opened} closed {closed} stored {stored} kept {kept}")?;
    Ok(text.into_bytes())
}

// What was refused, and how much was said.
fn items_line(alloc: Global, counts: &SessionCounts) -> Result<Vec<u8>, NoMemory>
    ensures { IfOk result (λ text. text.items ≡ items_line counts.now) }
{
    let SessionCounts {
        refused,
        sent,
        read,
        ..
    } = *counts;
    let line = format!(in alloc; " refused {refused} sent {sent} read {read}\n")?;
    Ok(line.into_bytes())
}

/// The numbers of a feed that was read whole, or how else the following ended.
pub(crate) fn followed_line(
    alloc: Global,
    followed: &Result<FollowCounts, SessionEnd>,
) -> Result<Vec<u8>, NoMemory>
    ensures { IfOk result (λ text. text.items ≡ followed_line followed.now) }
{
    match followed {
        Ok(counts) => feed_line(alloc, counts),
        Err(end) => end_line(alloc, end),
    }
}

// The numbers of a feed.
fn feed_line(alloc: Global, counts: &FollowCounts) -> Result<Vec<u8>, NoMemory>
    ensures { IfOk result (λ text. text.items ≡ followed_line (Ok counts.now)) }
{
    let FollowCounts {
        read,
        stored,
        kept,
        refused,
    } = *counts;
    let line = format!(in alloc;
        "followed {read} stored {stored} kept {kept} refused {refused}\n"
    )?;
    Ok(line.into_bytes())
}

/// Appends the line of the first refused row, where there is one.
pub(crate) fn put_first_line(
    alloc: Global,
    first: Option<RefusedRow>,
    text: &mut Vec<u8>,
) -> Result<(), NoMemory>
    ensures text { OnOk result (text.new.items ≡ text.old.items ++ first_line first) }
    ensures some { OnErr result (0 < length (first_line first)) }
{
    match first {
        Some(RefusedRow { row, refusal }) => {
            let mut line = format!(in alloc; "first refused row {row}: ")?.into_bytes();
            put_refusal(refusal, &mut line)?;
            put_bytes(text, &line)
        }
        None => Ok(()),
    }
}

// Appends a refusal's text and a newline.
fn put_refusal(refusal: RowRefusal, line: &mut Vec<u8>) -> Result<(), NoMemory>
    ensures { OnOk result (line.new.items ≡ line.old.items ++ refused_line refusal) }
{
    row_refusal_text(refusal, line)?;
    put_byte(line, b'\n')
}

// The line of a stop with a log open, and how many rows the file of the log holds.
fn stopped_lines(alloc: Global, stopped: &Stopped) -> Result<Vec<u8>, NoMemory>
    ensures { IfOk result (λ text. text.items ≡ stop_line stopped.now.stop ++ kept_line (Some stopped.now.kept)) }
{
    let mut text = stop_line(alloc, &stopped.stop)?;
    put_kept_line(alloc, Some(stopped.kept), &mut text)?;
    Ok(text)
}

// The line of a stop.
fn stop_line(alloc: Global, stop: &Stop) -> Result<Vec<u8>, NoMemory>
    ensures { IfOk result (λ text. text.items ≡ stop_line stop.now) }
{
    match stop {
        Stop::Usage => plain_line(alloc, "usage\n"),
        Stop::ReadFault => plain_line(alloc, "read fault\n"),
        Stop::WriteFault => plain_line(alloc, "write fault\n"),
        Stop::BadInput { origin, at } => bad_input_line(alloc, name_of(origin), *at),
        Stop::NotRising { origin, row } => not_rising_line(alloc, name_of(origin), *row),
        Stop::Pruned { origin, row, by } => pruned_line(alloc, name_of(origin), *row, *by),
        Stop::Missing { name } => Ok(format!(in alloc; "missing {name}\n")?.into_bytes()),
        Stop::Taken { name } => Ok(format!(in alloc; "taken {name}\n")?.into_bytes()),
        Stop::Refused(refusal) => {
            let mut line = plain_line(alloc, "refused: ")?;
            put_refusal(*refusal, &mut line)?;
            Ok(line)
        }
        Stop::SessionRefused(refusal) => end_line(alloc, &SessionEnd::Hello(*refusal)),
        Stop::NoMemory => plain_line(alloc, "no memory\n"),
        Stop::LogFull => plain_line(alloc, "log full\n"),
        Stop::KeySpent => plain_line(alloc, "key spent\n"),
    }
}

// How a session ended that was not done.
fn end_line(alloc: Global, end: &SessionEnd) -> Result<Vec<u8>, NoMemory>
    ensures { IfOk result (λ text. text.items ≡ session_line (Err end.now)) }
{
    let mut line = Vec::new(alloc);
    session_end_text(end, &mut line)?;
    put_byte(&mut line, b'\n')?;
    Ok(line)
}

// Where the bytes of this name go wrong.
fn bad_input_line(alloc: Global, name: &str, at: u64) -> Result<Vec<u8>, NoMemory>
    ensures { IfOk result (λ text. text.items ≡ bad_input_line name.now at) }
{
    Ok(format!(in alloc; "bad input {name} at {at}\n")?.into_bytes())
}

// Which row of this name is not above the row before it.
fn not_rising_line(alloc: Global, name: &str, row: u32) -> Result<Vec<u8>, NoMemory>
    ensures { IfOk result (λ text. text.items ≡ not_rising_line name.now row) }
{
    Ok(format!(in alloc; "not rising {name} row {row}\n")?.into_bytes())
}

// Which row of this name an earlier one dominates.
fn pruned_line(alloc: Global, name: &str, row: u32, by: u32) -> Result<Vec<u8>, NoMemory>
    ensures { IfOk result (λ text. text.items ≡ pruned_line name.now row by) }
{
    Ok(format!(in alloc; "pruned {name} row {row} by {by}\n")?.into_bytes())
}

// The text as bytes.
fn plain_line(alloc: Global, text: &str) -> Result<Vec<u8>, NoMemory>
    ensures { IfOk result (λ line. line.items ≡ text.now) }
{
    Ok(Vec::from_slice(alloc, text.as_bytes())?)
}

// The name of what the bytes came from: `-` for the input.
fn name_of(origin: &Origin) -> &str
    ensures { result.now ≡ name_text origin.now }
{
    match origin {
        Origin::Input => "-",
        Origin::Name(name) => name.as_str(),
    }
}
