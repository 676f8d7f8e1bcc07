//! The report's lines for sessions over links: one of each link, and what else was met.

ghost use Rattle.std.specs.Prelude.{◌≡◌, ◌<◌, ◌++◌, length, is_ok, IfOk, IsSome, OnOk, OnErr};
ghost use Rattle.std.specs.List.{list_all};
ghost use Rattle.peer_report.specs.Report.{accept_line, hosted_first, hosted_lines, is_followed, kept_line, link_line, link_number, numbered, put_line, tail_line};

use crate::lines::{ended_line, followed_line, put_first_line, put_left_line};
use mc_cap::RefusedRow;
use peer_stage::{FollowCounts, Hosted, SessionCounts};
use session_end::SessionEnd;
use spelling::{NoMemory, put_bytes};
use std::alloc::Global;

/// How the session of each link ended, what came of following behind it, the watchers that left, the first refused row where
/// nothing else is told, what the log keeps, that not all links came, and that the image was not put.
pub(crate) fn hosted_lines(alloc: Global, hosted: &Hosted) -> Result<Vec<u8>, NoMemory>
    ensures text { IfOk result (λ text. text.items ≡ hosted_lines hosted.now) }
    ensures some { OnErr result (0 < length (hosted_lines hosted.now)) }
{
    let mut text = Vec::new(alloc);
    put_link_lines(alloc, hosted.awaited, &hosted.sessions, &mut text)?;
    put_tail_lines(alloc, hosted.awaited, &hosted.tails, &mut text)?;
    put_left_line(alloc, hosted.left, &mut text)?;
    put_first_line(alloc, hosted_first(hosted), &mut text)?;
    put_kept_line(alloc, hosted.kept, &mut text)?;
    put_accept_line(hosted.all_came, &mut text)?;
    put_put_line(hosted.put, &mut text)?;
    Ok(text)
}

// Appends the line of each link, numbered from 1 where links were waited for.
fn put_link_lines(
    alloc: Global,
    awaited: bool,
    sessions: &[Result<SessionCounts, SessionEnd>],
    text: &mut Vec<u8>,
) -> Result<(), NoMemory>
    ensures text { OnOk result (text.new.items ≡ text.old.items ++ numbered (link_line awaited) 1 sessions.now) }
    ensures some { OnErr result (0 < length (numbered (link_line awaited) 1 sessions.now)) }
{
    for (index, session) in sessions.iter().enumerate() {
        put_link_line(alloc, awaited, index + 1, session, text)?;
    }
    Ok(())
}

// Appends the line of the link of this number.
fn put_link_line(
    alloc: Global,
    awaited: bool,
    number: usize,
    session: &Result<SessionCounts, SessionEnd>,
    text: &mut Vec<u8>,
) -> Result<(), NoMemory>
    ensures { OnOk result (text.new.items ≡ text.old.items ++ link_line awaited number session.now) }
{
    let ended = ended_line(alloc, session)?;
    put_link_number(alloc, awaited, number, text)?;
    put_bytes(text, &ended)
}

// Appends the number of a link that was waited for.
fn put_link_number(
    alloc: Global,
    awaited: bool,
    number: usize,
    text: &mut Vec<u8>,
) -> Result<(), NoMemory>
    ensures { OnOk result (text.new.items ≡ text.old.items ++ link_number awaited number) }
{
    if !awaited {
        return Ok(());
    }
    let number = format!(in alloc; "link {number}: ")?.into_bytes();
    put_bytes(text, &number)
}

// Appends a line for each link where there is something to tell of what followed its session.
fn put_tail_lines(
    alloc: Global,
    awaited: bool,
    tails: &[Option<Result<FollowCounts, SessionEnd>>],
    text: &mut Vec<u8>,
) -> Result<(), NoMemory>
    ensures text { OnOk result (text.new.items ≡ text.old.items ++ numbered (tail_line awaited) 1 tails.now) }
    ensures some { OnErr result (0 < length (numbered (tail_line awaited) 1 tails.now)) }
{
    for (index, tail) in tails.iter().enumerate() {
        put_tail_line(alloc, awaited, index + 1, tail, text)?;
    }
    Ok(())
}

// Appends what came of following behind the session of the link of this number.
fn put_tail_line(
    alloc: Global,
    awaited: bool,
    number: usize,
    tail: &Option<Result<FollowCounts, SessionEnd>>,
    text: &mut Vec<u8>,
) -> Result<(), NoMemory>
    ensures text { OnOk result (text.new.items ≡ text.old.items ++ tail_line awaited number tail.now) }
    ensures some { OnErr result (IsSome tail.now) }
{
    match tail {
        None => Ok(()),
        Some(followed) => {
            let line = followed_line(alloc, followed)?;
            put_link_number(alloc, awaited, number, text)?;
            put_bytes(text, &line)
        }
    }
}

// The row that is told as the first refused one: none, unless every session was done, and what followed it, all links came
// and the image was put.
fn hosted_first(hosted: &Hosted) -> Option<RefusedRow>
    ensures { result ≡ hosted_first hosted.now }
{
    if all_done(&hosted.sessions) && all_followed(&hosted.tails) && hosted.all_came && hosted.put {
        hosted.first
    } else {
        None
    }
}

// Whether every session was done.
fn all_done(sessions: &[Result<SessionCounts, SessionEnd>]) -> bool
    ensures { result ≡ list_all is_ok sessions.now }
{
    sessions.iter().all(|session| session.is_ok())
}

// Whether whatever was followed came to its end.
fn all_followed(tails: &[Option<Result<FollowCounts, SessionEnd>>]) -> bool
    ensures { result ≡ list_all is_followed tails.now }
{
    tails.iter().all(is_followed)
}

// Whether nothing was followed, or it came to its end.
fn is_followed(tail: &Option<Result<FollowCounts, SessionEnd>>) -> bool
    ensures { result ≡ is_followed tail.now }
{
    match tail {
        None => true,
        Some(followed) => followed.is_ok(),
    }
}

/// Appends how many rows the file of the log holds, where one is kept.
pub(crate) fn put_kept_line(
    alloc: Global,
    kept: Option<u64>,
    text: &mut Vec<u8>,
) -> Result<(), NoMemory>
    ensures text { OnOk result (text.new.items ≡ text.old.items ++ kept_line kept) }
    ensures some { OnErr result (0 < length (kept_line kept)) }
{
    match kept {
        None => Ok(()),
        Some(rows) => {
            let line = format!(in alloc; "kept {rows}\n")?.into_bytes();
            put_bytes(text, &line)
        }
    }
}

// Appends a read fault's line, unless all links came.
fn put_accept_line(all_came: bool, text: &mut Vec<u8>) -> Result<(), NoMemory>
    ensures text { OnOk result (text.new.items ≡ text.old.items ++ accept_line all_came) }
    ensures some { OnErr result (0 < length (accept_line all_came)) }
{
    if all_came {
        Ok(())
    } else {
        put_bytes(text, b"read fault\n")
    }
}

// Appends a write fault's line, unless the image was put.
fn put_put_line(put: bool, text: &mut Vec<u8>) -> Result<(), NoMemory>
    ensures text { OnOk result (text.new.items ≡ text.old.items ++ put_line put) }
    ensures some { OnErr result (0 < length (put_line put)) }
{
    if put {
        Ok(())
    } else {
        put_bytes(text, b"write fault\n")
    }
}
