//! The run of a mesh.

ghost use Rattle.std.specs.Prelude.{◌≤◌};
ghost use Rattle.peer_stage.specs.World.{World};
ghost use Rattle.peer_stage.specs.Faults.{CountsStep};
ghost use Rattle.peer_words.specs.Words.{texts};
ghost use Rattle.mesh_command.specs.Runs.{Answers, AnswersInput};
ghost use Rattle.mesh_command.specs.Promises.{KeepsMesh};

use crate::bytes::answer_bytes;
use mesh_answers::MeshStores;
use peer_report::end_run;
use peer_stage::{Done, Stop, read_input, write_output};
use std::alloc::Global;
use willow_outside::{Sink, Source};

/// The greatest number of bytes that are taken from the input.
pub const MESH_LIMIT: u64 = 1_048_576;

// The text of the input's lines. All of the input is read before any line is looked at.
fn answer_input<M: MeshStores, I: Source>(alloc: Global, input: &mut I) -> Result<Vec<u8>, Stop>
    ensures answers { AnswersInput M.rules (I.facts input.old) (I.facts input.new) result }
    ensures faults { CountsStep (I.facts input.old).faults (I.facts input.new).faults result }
    ensures ends { (I.facts input.old).ends ≤ (I.facts input.new).ends }
{
    let bytes = read_input(alloc, input, MESH_LIMIT)?;
    answer_bytes::<M>(alloc, &bytes)
}

// Writes the text of the input's lines.
fn answer<M: MeshStores, I: Source, O: Sink>(
    alloc: Global,
    input: &mut I,
    output: &mut O,
) -> Result<Done, Stop>
    ensures { (others : World) → Answers M.rules
        (record others { input = I.facts input.old; output = O.facts output.old })
        (record others { input = I.facts input.new; output = O.facts output.new }) result }
{
    let text = answer_input::<M, I>(alloc, input)?;
    write_output(output, &text)?;
    Ok(Done::Made)
}

/// Runs the lines of the input over nodes that hold nothing at first, and writes what they ask for and how many rows each
/// node then holds. It answers 0, or 2 where there is a word, 3 or 4 where reading or writing failed, 5 where the input is
/// too long or not the lines of a mesh, 7 for want of memory; the report gets the line of that end. Nothing is written
/// before all lines are read, and read faults go before bad input.
pub fn run_mesh<M: MeshStores, I: Source, O: Sink, E: Sink>(
    alloc: Global,
    words: &[String],
    input: &mut I,
    output: &mut O,
    report: &mut E,
) -> u8
    ensures promises { (others : World) → KeepsMesh M.rules (record {
      words = texts words.now;
      old = record others { input = I.facts input.old; output = O.facts output.old; report = E.facts report.old };
      new = record others { input = I.facts input.new; output = O.facts output.new; report = E.facts report.new };
      status = result;
    }) }
{
    if !words.is_empty() {
        return end_run(alloc, &Err(Stop::Usage), report);
    }
    let end = answer::<M, I, O>(alloc, input, output);
    end_run(alloc, &end, report)
}
