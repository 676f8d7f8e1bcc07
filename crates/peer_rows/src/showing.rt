//! `show`: the listing of the authorised rows of the input's image.

ghost use Rattle.std.specs.Prelude.{◌≡◌, ℕ, ◌≤◌, Option};
ghost use Rattle.peer_stage.specs.World.{World};
ghost use Rattle.peer_stage.specs.Faults.{CountsStep};
ghost use Rattle.peer_rows.specs.Show.{Shows};
ghost use Rattle.peer_rows.specs.Listed.{ShowsInputLog, show_counts};

use crate::images::log_bytes;
use crate::listing::write_listing;
use crate::log::{Log, leave_to_exit};
use auth_entry::NewChecker;
use lms_core::PeerScheme;
use peer_stage::{Done, INPUT_LIMIT, JoinCounts, Origin, ShowCounts, Stop, read_input};
use std::alloc::Global;
use std::thread::Threads;
use willow_outside::{Sink, Source};

/// Reads an image from the input and writes the listing of those of its rows that are authorised in its
/// namespace: a head with the number of the lines, and a line for each, in the order of the image; or, where `newest`
/// says so, for the first so many by recency, or all where there are fewer. Told are the numbers of all rows of the
/// image and of those that are not authorised, with the first of these, counted from 1. A checker of the given kind judges
/// the rows. The lines are made on all processors where they are many, and never stand in memory all at once. Once they are
/// written the log of the rows is left to the end of the run.
pub fn show<C: NewChecker<PeerScheme>, R: Threads + Sync, I: Source, O: Sink>(
    rt: &R,
    alloc: Global,
    newest: Option<u32>,
    input: &mut I,
    output: &mut O,
) -> Result<Done, Stop>
    ensures { (others : World) → Shows newest
        (record others { input = I.facts input.old; output = O.facts output.old })
        (record others { input = I.facts input.new; output = O.facts output.new }) result }
{
    let log = show_input::<C, R, I>(rt, alloc, input)?;
    write_listing(rt, alloc, newest, &log.kept, output)?;
    let counts = show_counts(&log.counts);
    leave_to_exit(log);
    Ok(Done::Shown(counts))
}

// The log of the rows of the input's image. What is asked for is shown of it.
fn show_input<C: NewChecker<PeerScheme>, R: Threads + Sync, I: Source>(
    rt: &R,
    alloc: Global,
    input: &mut I,
) -> Result<Log, Stop>
    ensures shows { (asked : Option ℕ) → ShowsInputLog asked (I.facts input.old) (I.facts input.new) result }
    ensures faults { CountsStep (I.facts input.old).faults (I.facts input.new).faults result }
    ensures ends { (I.facts input.old).ends ≤ (I.facts input.new).ends }
{
    let bytes = read_input(alloc, input, INPUT_LIMIT)?;
    log_bytes::<C, R>(rt, alloc, &bytes, Origin::Input)
}

// The numbers of a listing of rows that were offered to a log.
fn show_counts(counts: &JoinCounts) -> ShowCounts
    ensures { result ≡ show_counts counts.now }
{
    ShowCounts {
        rows: counts.rows,
        refused: counts.refused,
        first: counts.first,
    }
}
