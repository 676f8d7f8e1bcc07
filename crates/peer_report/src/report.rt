//! The status of a run, and its report.

ghost use Rattle.std.specs.Prelude.{◌≡◌, ◌≤◌, ◌==◌, ◌++◌, Some, is_some, Ok, IfSome};
ghost use Rattle.std.specs.List.{list_any};
ghost use Rattle.peer_stage.specs.Status.{status_of, statuses_met, stop_status, refused_status, first_status, accept_status, put_status, session_status, tail_status, end_status};
ghost use Rattle.peer_stage.specs.Stages.{WritesOutput};
ghost use Rattle.peer_stage.specs.Faults.{CountsStep};
ghost use Rattle.peer_stage.specs.declared.outcome.Done.TheVariants as done;
ghost use Rattle.peer_report.specs.Report.{after_report_fault, kept_line, met_behind, others_met, report_of, stop_line, told_status, is_fault, Reports};

use crate::lines::report_of;
use itoa::Buffer;
use mc_cap::RefusedRow;
use peer_stage::{
    Done, FollowCounts, Hosted, SessionCounts, Stop, Stopped, write_both, write_output,
};
use session_end::SessionEnd;
use std::alloc::Global;
use willow_outside::Sink;

/// The status of a run that ended so.
fn status_of(end: &Result<Done, Stop>) -> u8
    ensures { result ≡ status_of end.now }
{
    match end {
        Ok(done) => done_status(done),
        Err(stop) => stop_status(stop),
    }
}

/// The status of what is done, by what was met on the way.
fn done_status(done: &Done) -> u8
    ensures { result ≡ status_of (Ok done.now) }
{
    match done {
        Done::Joined(counts) => refused_status(counts.refused),
        Done::Shown(counts) => refused_status(counts.refused),
        Done::Met(counts) => first_status(counts.first),
        Done::Hosted(hosted) => hosted_status(hosted),
        Done::Stopped(stopped) => stop_status(&stopped.stop),
        Done::Watched(counts) => first_status(counts.first),
        Done::Made => 0,
    }
}

/// The status of a session that was not done.
fn end_status(end: &SessionEnd) -> u8
    ensures { result ≡ end_status end.now }
{
    match end {
        SessionEnd::LinkRead => 3,
        SessionEnd::LinkWrite => 4,
        SessionEnd::ClosedEarly { .. } => 6,
        SessionEnd::BadMessage { .. } => 6,
        SessionEnd::Hello(_) => 6,
        SessionEnd::Core(_) => 6,
        SessionEnd::SignFault => 6,
        SessionEnd::LogFull { .. } => 8,
        SessionEnd::NoMemory => 7,
    }
}

/// The status of what came of sessions: the first of 7, 3, 4, 6, 8 and 1 that a session, what followed one, the accepting of
/// the links, the put of the image or a refused row gave.
fn hosted_status(hosted: &Hosted) -> u8
    ensures { result ≡ status_of (Ok (done.Hosted hosted.now)) }
{
    for status in [7, 3, 4, 6, 8, 1] {
        if has_met(hosted, status) {
            return status;
        }
    }
    0
}

/// Whether what has this status was met.
fn has_met(hosted: &Hosted, status: u8) -> bool
    ensures { result ≡ list_any (λ met. met == status) (statuses_met (done.Hosted hosted.now)) }
{
    session_met(&hosted.sessions, status) || other_met(hosted, status)
}

/// Whether a session ended with what has this status.
fn session_met(sessions: &[Result<SessionCounts, SessionEnd>], status: u8) -> bool
    ensures { result ≡ list_any (λ session. session_status session == status) sessions.now }
{
    sessions
        .iter()
        .any(|session| session_status(session) == status)
}

/// Whether what was met beside the sessions has this status.
fn other_met(hosted: &Hosted, status: u8) -> bool
    ensures { result ≡ list_any (λ met. met == status) (others_met hosted.now) }
{
    tail_met(&hosted.tails, status) || met_behind(hosted, status)
}

/// Whether what followed a session ended with what has this status.
fn tail_met(tails: &[Option<Result<FollowCounts, SessionEnd>>], status: u8) -> bool
    ensures { result ≡ list_any (λ tail. tail_status tail == status) tails.now }
{
    tails.iter().any(|tail| tail_status(tail) == status)
}

/// Whether what was met behind all links has this status.
fn met_behind(hosted: &Hosted, status: u8) -> bool
    ensures { result ≡ list_any (λ met. met == status) (met_behind hosted.now) }
{
    accept_status(hosted.all_came) == status
        || put_status(hosted.put) == status
        || first_status(hosted.first) == status
}

/// 0 where the session was done, else the status of its end.
fn session_status(session: &Result<SessionCounts, SessionEnd>) -> u8
    ensures { result ≡ session_status session.now }
{
    match session {
        Ok(_) => 0,
        Err(end) => end_status(end),
    }
}

/// 0 where nothing was followed, or it came to its end; else the status of how the following ended.
fn tail_status(tail: &Option<Result<FollowCounts, SessionEnd>>) -> u8
    ensures { result ≡ tail_status tail.now }
{
    match tail {
        None => 0,
        Some(Ok(_)) => 0,
        Some(Err(end)) => end_status(end),
    }
}

/// 0 where all links came, else 3.
fn accept_status(all_came: bool) -> u8
    ensures { result ≡ accept_status all_came }
{
    if all_came { 0 } else { 3 }
}

/// 0 where the image was put, else 4.
fn put_status(put: bool) -> u8
    ensures { result ≡ put_status put }
{
    if put { 0 } else { 4 }
}

/// The status of a stop.
fn stop_status(stop: &Stop) -> u8
    ensures { result ≡ stop_status stop.now }
{
    match stop {
        Stop::Refused(_) => 1,
        Stop::Usage => 2,
        Stop::ReadFault => 3,
        Stop::WriteFault => 4,
        Stop::BadInput { .. } => 5,
        Stop::NotRising { .. } => 5,
        Stop::Pruned { .. } => 5,
        Stop::Missing { .. } => 5,
        Stop::Taken { .. } => 5,
        Stop::SessionRefused(_) => 6,
        Stop::NoMemory => 7,
        Stop::LogFull => 8,
        Stop::KeySpent => 9,
    }
}

/// 0 where no row was refused, else 1.
fn refused_status(refused: u64) -> u8
    ensures { result ≡ refused_status refused }
{
    if refused == 0 { 0 } else { 1 }
}

/// 0 where there is no first refused row, else 1.
fn first_status(first: Option<RefusedRow>) -> u8
    ensures { result ≡ first_status first }
{
    match first {
        None => 0,
        Some(_) => 1,
    }
}

/// The status after the report failed: 4 where it would be 0 or 1.
fn after_report_fault(status: u8) -> u8
    ensures { result ≡ after_report_fault status }
{
    if status <= 1 { 4 } else { status }
}

/// The status behind the writing of the lines: that of the end, 4 in place of 0 or 1 where it failed, and 7 where no
/// memory was found.
fn told_status(end: &Result<Done, Stop>, written: Result<(), Stop>) -> u8
    ensures { result ≡ told_status end.now written }
{
    match written {
        Ok(()) => status_of(end),
        Err(Stop::NoMemory) => 7,
        Err(_) => after_report_fault(status_of(end)),
    }
}

/// Writes how many rows the file of the log holds; no memory is asked for.
fn write_kept<E: Sink>(report: &mut E, kept: u64) -> Result<(), Stop>
    ensures writes { WritesOutput (E.facts report.old) (E.facts report.new) (kept_line (Some kept)) result }
    ensures faults { CountsStep (E.facts report.old).faults (E.facts report.new).faults result }
{
    let mut digits = Buffer::new();
    write_output(report, b"kept ")?;
    write_both(report, digits.format(kept).as_bytes(), b"\n")
}

/// Writes the line of a stop, and behind it what the log keeps.
fn write_stopped<E: Sink>(report: &mut E, line: &[u8], kept: u64) -> Result<(), Stop>
    ensures writes { WritesOutput (E.facts report.old) (E.facts report.new) (line.now ++ kept_line (Some kept)) result }
    ensures faults { CountsStep (E.facts report.old).faults (E.facts report.new).faults result }
{
    write_output(report, line)?;
    write_kept(report, kept)
}

/// Writes the lines of an end, made whole before.
fn write_told<E: Sink>(alloc: Global, end: &Result<Done, Stop>, report: &mut E) -> Result<(), Stop>
    ensures writes { WritesOutput (E.facts report.old) (E.facts report.new) (report_of end.now) result }
    ensures faults { CountsStep (E.facts report.old).faults (E.facts report.new).faults result }
{
    let lines = report_of(alloc, end)?;
    write_output(report, &lines)
}

/// The line of a fault of reading or writing, a fixed text; None of any other stop.
fn fault_line(stop: &Stop) -> Option<&'static [u8]>
    ensures line { IfSome result (λ line. line.now ≡ stop_line stop.now) }
    ensures fault { is_some result ≡ is_fault stop.now }
{
    match stop {
        Stop::ReadFault => Some(b"read fault\n"),
        Stop::WriteFault => Some(b"write fault\n"),
        _ => None,
    }
}

/// Writes the lines of an end. No memory is asked for those of a fault that stopped the run: so want of memory hides such a
/// fault only where the report itself wants some.
fn write_lines<E: Sink>(alloc: Global, end: &Result<Done, Stop>, report: &mut E) -> Result<(), Stop>
    ensures writes { WritesOutput (E.facts report.old) (E.facts report.new) (report_of end.now) result }
    ensures faults { CountsStep (E.facts report.old).faults (E.facts report.new).faults result }
{
    match end {
        Err(stop) => {
            if let Some(line) = fault_line(stop) {
                return write_output(report, line);
            }
        }
        Ok(Done::Stopped(stopped)) => {
            if let Some(line) = fault_line(&stopped.stop) {
                return write_stopped(report, line, stopped.kept);
            }
        }
        _ => {}
    }
    write_told(alloc, end, report)
}

/// Writes the report's lines for a run that ended so, and answers its status: 0, or 1 where a row was not
/// authorised or what was to be made is refused; 2 to 9 by the cause of the stop. Where the report fails the
/// status is 4 in place of 0 or 1, and where no memory is found for it, 7.
pub fn end_run<E: Sink>(alloc: Global, end: &Result<Done, Stop>, report: &mut E) -> u8
    ensures reports { Reports (E.facts report.old) (E.facts report.new) end.now result }
    ensures faults { (E.facts report.old).faults ≤ (E.facts report.new).faults }
{
    let written = write_lines(alloc, end, report);
    told_status(end, written)
}
