//! The first stage of a join: the rows of several reads, judged together.

ghost use Rattle.std.specs.Prelude.{◌≡◌, ◌<◌, ◌≤◌, List, IfOk, false};
ghost use Rattle.willow_outside.specs.Facts.{SourceFacts};
ghost use Rattle.cap_codec.specs.Rows.{RawValue};
ghost use Rattle.peer_stage.specs.Faults.{CountsStep};
ghost use Rattle.peer_stage.specs.Stages.{IsReadSomewhat};
ghost use Rattle.peer_rows.specs.Coming.{HaveCome};
ghost use Rattle.peer_rows.specs.Gathering.{GathersRows, GathersJudged};

use crate::intake::put_behind;
use crate::keeping::Verdict;
use crate::reading::Reading;
use auth_entry::Checker;
use cap_codec::RawRow;
use lms_core::PeerScheme;
use peer_stage::Stop;
use std::alloc::Global;
use std::thread::Threads;
use willow_outside::Source;

/// So many rows are worth a thread for those before them: to start and to join one may take as long as a read.
const STEP: usize = 2_048;

/// The verdicts on the rows that came, in order, and whether the input ended behind them.
#[derive(Drop)]
pub(crate) struct Gathered {
    pub(crate) judged: Vec<Verdict>,
    pub(crate) ended: bool,
}

/// Reads on until many rows came, or more than there is room for, or the input ends, and judges them together. What is wrong
/// stops the reading. Nothing is asked for behind rows of which one could meet a full log.
pub(crate) fn gather<C: Checker<PeerScheme>, R: Threads + Sync, I: Source>(
    rt: &R,
    alloc: Global,
    checker: &mut C,
    reading: &mut Reading,
    input: &mut I,
    room: usize,
) -> Result<Gathered, Stop>
    requires { (begun : SourceFacts) × (rows : List RawValue) × HaveCome begun (I.facts input.old) reading.old rows }
    ensures namespace { C.judged_in checker.new ≡ C.judged_in checker.old }
    ensures gathers { (begun : SourceFacts) (rows : List RawValue) → HaveCome begun (I.facts input.old) reading.old rows
        → GathersJudged begun (I.facts input.new) reading.new rows room (C.judged_in checker.old) result }
    ensures somewhat { IsReadSomewhat (I.facts input.old) (I.facts input.new) }
    ensures fewer { IfOk result (λ gathered. gathered.ended ≡ false → reading.new.left < reading.old.left) }
    ensures faults { CountsStep (I.facts input.old).faults (I.facts input.new).faults result }
    ensures ends { (I.facts input.old).ends ≤ (I.facts input.new).ends }
{
    let (rows, ended) = gather_rows(alloc, reading, input, room)?;
    let judged = checker.check_all(rt, alloc, rows)?;
    Ok(Gathered { judged, ended })
}

// The rows of several reads, and whether the input ended behind them.
fn gather_rows<I: Source>(
    alloc: Global,
    reading: &mut Reading,
    input: &mut I,
    room: usize,
) -> Result<(Vec<RawRow>, bool), Stop>
    requires { (begun : SourceFacts) × (rows : List RawValue) × HaveCome begun (I.facts input.old) reading.old rows }
    ensures gathers { (begun : SourceFacts) (rows : List RawValue) → HaveCome begun (I.facts input.old) reading.old rows
        → GathersRows begun (I.facts input.new) reading.new rows room result }
    ensures somewhat { IsReadSomewhat (I.facts input.old) (I.facts input.new) }
    ensures fewer { IfOk result (λ x. x.1 ≡ false → reading.new.left < reading.old.left) }
    ensures faults { CountsStep (I.facts input.old).faults (I.facts input.new).faults result }
    ensures ends { (I.facts input.old).ends ≤ (I.facts input.new).ends }
{
    let mut rows = Vec::new(alloc);
    'reads: loop {
        let Some(more) = reading.rows(input)? else {
            return Ok((rows, true));
        };
        put_behind(&mut rows, more)?;
        if rows.len() >= STEP || rows.len() > room {
            return Ok((rows, false));
        }
    }
}
