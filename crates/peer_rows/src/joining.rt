//! `join`: the image of the live rows among the authorised rows of the input.

ghost use Rattle.std.specs.Prelude.{◌≡◌, ℕ, ◌^◌, ◌<◌, ◌≤◌, List, length, false, Err, IfOk, IsTrue, ◌↔◌};
ghost use Rattle.willow_outside.specs.Facts.{SourceFacts};
ghost use Rattle.cap_codec.specs.Rows.{RawValue};
ghost use Rattle.peer_stage.specs.World.{World};
ghost use Rattle.peer_stage.specs.Faults.{CountsStep};
ghost use Rattle.peer_stage.specs.Stages.{IsReadSomewhat};
ghost use Rattle.peer_stage.specs.declared.outcome.Stop.TheVariants as stop;
ghost use Rattle.peer_rows.specs.Coming.{HaveCome};
ghost use Rattle.peer_rows.specs.Gathering.{GathersJudged};
ghost use Rattle.peer_rows.specs.Join.{Joins};
ghost use Rattle.peer_rows.specs.Joining.{IsUnderWay, JoinsOn, TakesInput};
ghost use Rattle.peer_rows.specs.Keeping.{HoldsJudged, KeepsAll};
ghost use Rattle.peer_rows.specs.Reading.{LogsInput};

use crate::gathering::{Gathered, gather};
use crate::imaging::write_image_of;
use crate::keeping::Keeping;
use crate::log::{Log, leave_to_exit};
use crate::reading::Reading;
use auth_entry::{Checker, NewChecker};
use lms_core::PeerScheme;
use peer_stage::{Done, Stop};
use std::alloc::Global;
use std::thread::{Threads, join_mut};
use willow_outside::{Sink, Source};
use willow_path::NamespaceKey;

/// Reads row frames from the input, keeps the live rows of those that are authorised in the namespace, and
/// writes their image. Rows of several pieces of the input are judged together, by a checker of the given kind, and while they
/// are put into the log those of the next pieces are read and judged. Still what is wrong, and a row that meets a full log, are
/// told at the piece that brings them. Neither all of the input nor all of the image stands in memory. Once the image is written
/// the log of the rows is left to the end of the run.
pub fn join<C: NewChecker<PeerScheme>, R: Threads + Sync, I: Source, O: Sink>(
    rt: &R,
    alloc: Global,
    namespace: &NamespaceKey,
    input: &mut I,
    output: &mut O,
) -> Result<Done, Stop>
    ensures { (others : World) → Joins namespace.now
        (record others { input = I.facts input.old; output = O.facts output.old })
        (record others { input = I.facts input.new; output = O.facts output.new }) result }
{
    let log = read_log::<C, R, I>(rt, alloc, namespace, input)?;
    write_image_of(alloc, namespace, log.kept.store(), output)?;
    let counts = log.counts;
    leave_to_exit(log);
    Ok(Done::Joined(counts))
}

// The log of the rows of the input, read a piece at a time. What goes wrong in a piece stops the reading.
fn read_log<C: NewChecker<PeerScheme>, R: Threads + Sync, I: Source>(
    rt: &R,
    alloc: Global,
    namespace: &NamespaceKey,
    input: &mut I,
) -> Result<Log, Stop>
    ensures logs { LogsInput namespace.now (I.facts input.old) (I.facts input.new) result }
    ensures faults { CountsStep (I.facts input.old).faults (I.facts input.new).faults result }
    ensures ends { (I.facts input.old).ends ≤ (I.facts input.new).ends }
{
    let mut checker = C::begin(alloc, PeerScheme, *namespace)?;
    let mut reading = Reading::begin(alloc)?;
    let mut keeping = Keeping::new(alloc, Log::new(alloc, *namespace));
    take_input(rt, alloc, &mut checker, &mut reading, &mut keeping, input)?;
    Ok(keeping.log)
}

// Takes the input in up to its end, where nothing is taken in yet.
fn take_input<C: Checker<PeerScheme>, R: Threads + Sync, I: Source>(
    rt: &R,
    alloc: Global,
    checker: &mut C,
    reading: &mut Reading,
    keeping: &mut Keeping,
    input: &mut I,
) -> Result<(), Stop>
    requires { IsUnderWay (C.judged_in checker.old) (I.facts input.old) (I.facts input.old) reading.old keeping.old }
    ensures takes { TakesInput (C.judged_in checker.old) (I.facts input.old) (I.facts input.new) keeping.new result }
    ensures faults { CountsStep (I.facts input.old).faults (I.facts input.new).faults result }
    ensures ends { (I.facts input.old).ends ≤ (I.facts input.new).ends }
{
    'steps: loop {
        if !go_on(rt, alloc, checker, reading, keeping, input)? {
            return keeping.settle(alloc);
        }
    }
}

// Takes the rows that are held into the log, and holds the next ones. Answers whether the input goes on behind them. Only while
// the log has room for all that are held are the next ones read beside that: so nothing is read behind a row that meets a full
// log. What the first rows meet is told first, but want of memory hides no fault.
fn go_on<C: Checker<PeerScheme>, R: Threads + Sync, I: Source>(
    rt: &R,
    alloc: Global,
    checker: &mut C,
    reading: &mut Reading,
    keeping: &mut Keeping,
    input: &mut I,
) -> Result<bool, Stop>
    requires { (begun : SourceFacts) × IsUnderWay (C.judged_in checker.old) begun (I.facts input.old) reading.old keeping.old }
    ensures namespace { C.judged_in checker.new ≡ C.judged_in checker.old }
    ensures joins { (begun : SourceFacts) → IsUnderWay (C.judged_in checker.old) begun (I.facts input.old) reading.old keeping.old
        → JoinsOn (C.judged_in checker.old) begun (I.facts input.new) reading.new keeping.new result }
    ensures fewer { IfOk result (λ goes_on. IsTrue goes_on → reading.new.left < reading.old.left) }
    ensures faults { CountsStep (I.facts input.old).faults (I.facts input.new).faults result }
    ensures ends { (I.facts input.old).ends ≤ (I.facts input.new).ends }
{
    if let Some(room) = keeping.room_behind() {
        let (settled, came) = settle_and_gather(rt, alloc, checker, reading, keeping, input, room);
        if has_failed(&came) {
            return Err(Stop::ReadFault);
        }
        settled?;
        return Ok(keeping.hold(came?));
    }
    keeping.settle(alloc)?;
    let came = gather(rt, alloc, checker, reading, input, keeping.room())?;
    Ok(keeping.hold(came))
}

// Takes the rows that are held into the log on a thread of its own, while the next ones are read and judged on this one: so the
// input and the checker need not go to another thread.
fn settle_and_gather<C: Checker<PeerScheme>, R: Threads + Sync, I: Source>(
    rt: &R,
    alloc: Global,
    checker: &mut C,
    reading: &mut Reading,
    keeping: &mut Keeping,
    input: &mut I,
    room: usize,
) -> (Result<(), Stop>, Result<Gathered, Stop>)
    requires held { (namespace : List ℕ) × (rows : List RawValue) × HoldsJudged namespace rows keeping.old × (length rows < 2 ^ 64) }
    requires come { (begun : SourceFacts) × (rows : List RawValue) × HaveCome begun (I.facts input.old) reading.old rows }
    ensures keeps { (namespace : List ℕ) (rows : List RawValue) → HoldsJudged namespace rows keeping.old → KeepsAll namespace rows keeping.new result.0 }
    ensures namespace { C.judged_in checker.new ≡ C.judged_in checker.old }
    ensures gathers { (begun : SourceFacts) (rows : List RawValue) → HaveCome begun (I.facts input.old) reading.old rows
        → GathersJudged begun (I.facts input.new) reading.new rows room (C.judged_in checker.old) result.1 }
    ensures somewhat { IsReadSomewhat (I.facts input.old) (I.facts input.new) }
    ensures fewer { IfOk result.1 (λ gathered. gathered.ended ≡ false → reading.new.left < reading.old.left) }
    ensures faults { CountsStep (I.facts input.old).faults (I.facts input.new).faults result.1 }
    ensures ends { (I.facts input.old).ends ≤ (I.facts input.new).ends }
{
    settle_beside(
        rt,
        alloc,
        keeping,
        &mut ||
            requires { (begun : SourceFacts) × (rows : List RawValue) × HaveCome begun (I.facts input.now) reading.now rows }
        { gather(rt, alloc, checker, reading, input, room) },
    )
}

// Takes the rows that are held into the log on a thread of its own, while the other work is done on this one.
fn settle_beside<R: Threads, T, G: FnMut() -> T>(
    rt: &R,
    alloc: Global,
    keeping: &mut Keeping,
    other: &mut G,
) -> (Result<(), Stop>, T)
    requires here { (namespace : List ℕ) × (rows : List RawValue) × HoldsJudged namespace rows keeping.old × (length rows < 2 ^ 64) }
    requires other { G.pre other.old }
    ensures keeps { (namespace : List ℕ) (rows : List RawValue) → HoldsJudged namespace rows keeping.old → KeepsAll namespace rows keeping.new result.0 }
    ensures other { G.step other.old result.1 other.new }
{
    join_mut(rt, &mut || keeping.settle(alloc), other)
}

// Whether the reading failed.
fn has_failed(came: &Result<Gathered, Stop>) -> bool
    ensures { IsTrue result ↔ (came.now ≡ Err stop.ReadFault) }
{
    matches!(came, Err(Stop::ReadFault))
}
