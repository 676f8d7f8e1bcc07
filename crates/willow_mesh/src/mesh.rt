//! The one call that `main` makes.

ghost use Rattle.peer_words.specs.Words.{texts};
ghost use Rattle.peer_stage.specs.World.{World};
ghost use Rattle.mesh_command.specs.Promises.{KeepsMesh};
ghost use Rattle.willow_mesh.specs.Generated.{generated_mesh};

use crate::stores::Stores;
use mesh_command::run_mesh;
use std::alloc::Global;
use willow_outside::{Sink, Source};

/// Runs the lines of the input over a mesh whose nodes are offered rows of the generator, and answers the status: 0, or 2
/// where there is a word, 3 or 4 where reading or writing failed, 5 where the input is too long or not the lines of a mesh,
/// 7 for want of memory.
pub(crate) fn mesh_run<I: Source, O: Sink, E: Sink>(
    alloc: Global,
    words: &[String],
    input: &mut I,
    output: &mut O,
    report: &mut E,
) -> u8
    ensures promises { (others : World) → KeepsMesh generated_mesh (record {
      words = texts words.now;
      old = record others { input = I.facts input.old; output = O.facts output.old; report = E.facts report.old };
      new = record others { input = I.facts input.new; output = O.facts output.new; report = E.facts report.new };
      status = result;
    }) }
{
    run_mesh::<Stores, I, O, E>(alloc, words, input, output, report)
}
