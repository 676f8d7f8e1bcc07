//! `drill`: two stores of generated rows meet.

ghost use Rattle.std.specs.Prelude.{◌≡◌, ◌≤◌, IfOk};
ghost use Rattle.peer_stage.specs.World.{World};
ghost use Rattle.peer_run.specs.Drill.{Drills, drill_text};

use crate::exchanging::{exchange, hash_logs};
use crate::judging::RowChecker;
use area_interest::Interest;
use ns_state::LogFull;
use peer_listing::{DrillCounts, GENERATED_ROWS, drill_summary};
use peer_rows::generated_logs;
use peer_stage::{Done, Stop, write_output};
use spelling::{End, NoMemory};
use std::alloc::Global;
use std::thread::Threads;
use willow_area::Area;
use willow_outside::Sink;

/// Stores the first `rows` rows of the generator on the left and the first half of them on the right, lets both sides
/// meet over the full area, and writes how many rows each had before and after, and how much was said. There are at
/// most `GENERATED_ROWS`.
pub(crate) fn drill<R: Threads + Sync, O: Sink>(
    rt: &R,
    alloc: Global,
    rows: u32,
    output: &mut O,
) -> Result<Done, Stop>
    requires { rows ≤ GENERATED_ROWS }
    ensures { (others : World) → Drills rows (record others { output = O.facts output.old }) (record others { output = O.facts output.new }) result }
{
    let text = drill_text(rt, alloc, rows)?;
    write_output(output, &text)?;
    Ok(Done::Made)
}

// The summary of the meeting.
fn drill_text<R: Threads + Sync>(rt: &R, alloc: Global, rows: u32) -> Result<Vec<u8>, NoMemory>
    requires { rows ≤ GENERATED_ROWS }
    ensures { IfOk result (λ text. text.items ≡ drill_text rows) }
{
    let (mut left, mut right) = generated_logs::<RowChecker, R>(rt, alloc, rows)?;
    let before = (left.store().len(), right.store().len());
    let full = Some(Area::full(alloc));
    let limits = Interest {
        newest: None,
        bytes: None,
    };
    hash_logs(rt, alloc, &left, &right);
    let exchanged = match exchange(alloc, &mut left, &mut right, &full, &limits) {
        Ok(exchanged) => exchanged,
        Err(End::Refused(LogFull { front: _ })) => unreachable!(),
        Err(End::NoMemory) => return Err(NoMemory),
    };
    let counts = DrillCounts {
        rows,
        left: before.0,
        right: before.1,
        left_after: left.store().len(),
        right_after: right.store().len(),
        items: exchanged.items,
        turns: exchanged.turns.len() as u64,
    };
    let mut text = Vec::new(alloc);
    drill_summary(&counts, &mut text)?;
    Ok(text)
}
