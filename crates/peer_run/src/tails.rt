//! What follows a session on its link, a feed that is written or one that is read, and what is told of it.

ghost use Rattle.std.specs.Prelude.{◌≡◌, ◌<◌, ◌^◌, ◌+◌, ◌-◌, ◌↔◌, map, min, IfOk, IsTrue};
ghost use Rattle.std.specs.List.{sum_by};
ghost use Rattle.peer_run.specs.Telling.{IsTailForWant, IsWant, first_in_tails, first_with_tails, refused_in_tail, rows_told, told_tail};

use crate::sessions::{behind, first_of_all};
use mc_cap::RefusedRow;
use peer_stage::FollowCounts;
use spelling::NoMemory;
use std::alloc::Global;
use sync_follow::{Fed, FollowReport};
use sync_link::{SessionEnd, SessionReport};

/// How what followed a session on its link ended.
#[derive(Drop)]
pub(crate) enum Tail {
    /// Nothing followed it.
    Nothing,
    /// A feed was written.
    Fed(Result<Fed, SessionEnd>),
    /// A feed was read.
    Followed(Result<FollowReport, SessionEnd>),
}

/// What is told of a link behind its session: nothing, the numbers of a feed that was read whole, or how else it ended.
pub(crate) type TailTold = Option<Result<FollowCounts, SessionEnd>>;

/// Whether memory was wanting in what followed.
pub(crate) fn tail_wants_memory(tail: &Tail) -> bool
    ensures { IsTrue result ↔ IsTailForWant tail.now }
{
    match tail {
        Tail::Nothing => false,
        Tail::Fed(Ok(_)) => false,
        Tail::Fed(Err(end)) => is_want(end),
        Tail::Followed(Ok(_)) => false,
        Tail::Followed(Err(end)) => is_want(end),
    }
}

// Whether it is want of memory.
fn is_want(end: &SessionEnd) -> bool
    ensures { IsTrue result ↔ IsWant end.now }
{
    matches!(end, SessionEnd::NoMemory)
}

/// What is told of what followed each session.
pub(crate) fn told_tails(alloc: Global, tails: &[Tail]) -> Result<Vec<TailTold>, NoMemory>
    ensures { IfOk result (λ told. told.items ≡ map told_tail tails.now) }
{
    Ok(tails.iter().map(told_tail).collect(alloc)?)
}

// What is told of one: of a feed that was written only that it failed.
fn told_tail(tail: &Tail) -> TailTold
    ensures { result ≡ told_tail tail.now }
{
    match tail {
        Tail::Nothing => None,
        Tail::Fed(Ok(_)) => None,
        Tail::Fed(Err(end)) => Some(Err(*end)),
        Tail::Followed(Ok(report)) => Some(Ok(FollowCounts {
            read: report.read,
            stored: report.stored,
            kept: report.kept,
            refused: report.refused,
        })),
        Tail::Followed(Err(end)) => Some(Err(*end)),
    }
}

/// The first refused row, counted over the rows of the image, then those that came, link by link, and then those of the feed that
/// was read.
pub(crate) fn first_with_tails(
    rows: u64,
    first: Option<RefusedRow>,
    ends: &[Result<SessionReport, SessionEnd>],
    tails: &[Tail],
) -> Option<RefusedRow>
    ensures { result ≡ first_with_tails rows first ends.now tails.now }
{
    let first = first_of_all(rows, first, ends);
    if first.is_some() {
        return first;
    }
    match first_in_tails(tails) {
        None => None,
        Some(RefusedRow { row, refusal }) => Some(RefusedRow {
            row: rows_behind(rows, ends).saturating_add(row),
            refusal,
        }),
    }
}

// So many rows and then those of all sessions, up to the last number of a u64.
fn rows_behind(rows: u64, ends: &[Result<SessionReport, SessionEnd>]) -> u64
    ensures { result ≡ min (rows + sum_by rows_told ends.now) (2 ^ 64 - 1) }
{
    let mut before = rows;
    for end in ends {
        if let Ok(report) = end {
            before = behind(before, report);
        }
    }
    before
}

// The first row that was refused in the feeds that were read, by its number in its feed.
fn first_in_tails(tails: &[Tail]) -> Option<RefusedRow>
    ensures { result ≡ first_in_tails tails.now }
{
    for tail in tails {
        let first = refused_in_tail(tail);
        if first.is_some() {
            return first;
        }
    }
    None
}

// The same of one.
fn refused_in_tail(tail: &Tail) -> Option<RefusedRow>
    ensures { result ≡ refused_in_tail tail.now }
{
    let Tail::Followed(Ok(report)) = tail else {
        return None;
    };
    match report.first {
        None => None,
        Some((row, refusal)) => Some(RefusedRow {
            row: u64::from(row),
            refusal,
        }),
    }
}
