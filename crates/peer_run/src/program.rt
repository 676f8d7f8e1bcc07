//! The run of a program: its words stand behind its name, and it ends with the status.

ghost use Rattle.std.specs.Prelude.{◌≡◌, drop};
ghost use Rattle.std.specs.Process.{exit_status};
ghost use Rattle.peer_words.specs.Words.{texts};
ghost use Rattle.sub_hub.specs.Seen.{hub_seen};
ghost use Rattle.peer_run.specs.Promises.{KeepsPromises};

use crate::run::peer_run;
use std::alloc::Global;
use std::process::ExitCode;
use std::sync::Wait;
use std::thread::Threads;
use sub_hub::Hub;
use willow_outside::{Bay, Door, Noise, Shelf, Sink, Source};

// The words behind the first, which is the program's name.
fn behind_name(all: &[String]) -> &[String]
    ensures { result.now ≡ drop 1 all.now }
{
    match all.split_first() {
        Some((_, words)) => words,
        None => all,
    }
}

/// Runs the words behind the program's name, as `peer_run` does, over the objects outside. The exit code is the status that
/// the run answers.
pub fn run_program<
    R: Wait + Threads + Sync,
    H: Shelf,
    I: Source,
    O: Sink,
    E: Sink,
    D: Door,
    N: Noise,
    B: Bay,
>(
    rt: &R,
    alloc: Global,
    all: &[String],
    shelf: &mut H,
    input: &mut I,
    output: &mut O,
    report: &mut E,
    door: &mut D,
    noise: &mut N,
    bay: &mut B,
    hub: &mut Hub,
) -> ExitCode
    ensures promises { KeepsPromises (record {
      words = texts (drop 1 all.now);
      old = record {
        shelf = H.facts shelf.old;
        input = I.facts input.old;
        output = O.facts output.old;
        report = E.facts report.old;
        door = D.facts door.old;
        noise = N.facts noise.old;
        hub = hub_seen (λ w. told (w.vtable, w.value)) hub.old;
        bay = B.facts bay.old;
      };
      new = record {
        shelf = H.facts shelf.new;
        input = I.facts input.new;
        output = O.facts output.new;
        report = E.facts report.new;
        door = D.facts door.new;
        noise = N.facts noise.new;
        hub = hub_seen (λ w. told (w.vtable, w.value)) hub.new;
        bay = B.facts bay.new;
      };
      status = exit_status result;
    }) }
{
    let words = behind_name(all);
    let status = peer_run(
        rt, alloc, words, shelf, input, output, report, door, noise, bay, hub,
    );
    ExitCode::from(status)
}
