//! The program `willow_mesh`: it runs the lines of the standard input over the nodes of a mesh, and ends with the status
//! that the run answers.
#![tactic(auto)]

mod mesh;
mod stores;

ghost use Rattle.std.specs.Prelude.{◌≡◌, drop};
ghost use Rattle.std.specs.Process.{exit_status};
ghost use Rattle.peer_words.specs.Words.{texts};
ghost use Rattle.peer_stage.specs.World.{World};
ghost use Rattle.mesh_command.specs.Promises.{KeepsMesh};
ghost use Rattle.willow_mesh.specs.Generated.{generated_mesh};

use crate::mesh::mesh_run;
use peer_real::{StdReport, StdSink, StdSource};
use std::alloc::{AllocError, Global};
use std::env;
use std::io::{ErrorKind, Stderr, Stdin, Stdout};
use std::process::ExitCode;
use willow_outside::{Sink, Source};

/// All words of the command line, where there is memory for them. Where some are no text there is one behind the name, so that
/// the run refuses it.
fn all_words(rt: &HostRuntime) -> Result<Vec<String>, AllocError> {
    match env::args(rt) {
        Ok(args) => args.collect(rt.alloc()),
        Err(error) if error.kind() == ErrorKind::OutOfMemory => Err(AllocError),
        Err(_) => two_words(rt.alloc()),
    }
}

/// A name and a word, both empty.
fn two_words(alloc: Global) -> Result<Vec<String>, AllocError> {
    Ok(vec![in alloc; String::new(alloc), String::new(alloc)]?)
}

/// The words behind the first, which is the program's name.
fn behind_name(all: &[String]) -> &[String]
    ensures { result.now ≡ drop 1 all.now }
{
    match all.split_first() {
        Some((_, words)) => words,
        None => all,
    }
}

/// Runs the lines of the standard input, with standard error as the report; no word behind the program's name is allowed.
/// The exit code is the status that the run answers.
fn run(
    alloc: Global,
    all: &[String],
    input: &mut StdSource<Stdin>,
    output: &mut StdSink<Stdout>,
    report: &mut StdReport<Stderr>,
) -> ExitCode
    ensures promises { (others : World) → KeepsMesh generated_mesh (record {
      words = texts (drop 1 all.now);
      old = record others {
        input = ⟦<StdSource<Stdin> as Source>⟧.facts input.old;
        output = ⟦<StdSink<Stdout> as Sink>⟧.facts output.old;
        report = ⟦<StdSink<Stderr> as Sink>⟧.facts report.old;
      };
      new = record others {
        input = ⟦<StdSource<Stdin> as Source>⟧.facts input.new;
        output = ⟦<StdSink<Stdout> as Sink>⟧.facts output.new;
        report = ⟦<StdSink<Stderr> as Sink>⟧.facts report.new;
      };
      status = exit_status result;
    }) }
{
    let words = behind_name(all);
    let status = mesh_run(alloc, words, input, output, report);
    ExitCode::from(status)
}

fn main(rt: HostRuntime) -> ExitCode {
    match all_words(&rt) {
        Ok(all) => run(
            rt.alloc(),
            &all,
            &mut StdSource::new(rt.stdin()),
            &mut StdSink::new(rt.stdout()),
            &mut StdReport::new(rt.stderr()),
        ),
        Err(AllocError) => {
            let _ = rt.eprintln("no memory");
            ExitCode::from(7)
        }
    }
}

#[cfg(test)]
mod tests;
