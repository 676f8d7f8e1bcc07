//! The program `willow_peer`: it gives the one call `peer_run` the words, the standard streams, the files of the
//! current folder, the network, the machine's noise and one who watches and prints, and ends with the status that it answers.
#![tactic(auto)]

mod printing;

ghost use Rattle.std.specs.Prelude.{◌≡◌, ℕ, List, drop};
ghost use Rattle.std.specs.Process.{exit_status};
ghost use Rattle.peer_words.specs.Words.{texts};
ghost use Rattle.willow_peer.specs.Machine.{EndsAsRun};

use crate::printing::Printer;
use peer_real::{FileBay, FileShelf, RandomNoise, StdReport, StdSink, StdSource, TcpDoor};
use peer_run::run_program;
use std::alloc::AllocError;
use std::env;
use std::io::ErrorKind;
use std::process::ExitCode;
use std::sync::Wait;
use std::thread::Threads;
use sub_hub::{Hub, Watcher};
use willow_area::Area;

/// All words of the command line, where there is memory for them. Words that are no text are none, which is no
/// command.
fn all_words(rt: &HostRuntime) -> Result<Vec<String>, AllocError> {
    match env::args(rt) {
        Ok(args) => args.collect(rt.alloc()),
        Err(error) if error.kind() == ErrorKind::OutOfMemory => Err(AllocError),
        Err(_) => Ok(Vec::new(rt.alloc())),
    }
}

/// Runs the words behind the program's name over the machine. One watches who prints what it hears of.
fn run_here<R: Wait + Threads + Sync>(waits: &R, rt: &HostRuntime, all: &[String]) -> ExitCode
    ensures { EndsAsRun (texts (drop 1 all.now)) (exit_status result) }
{
    let alloc = rt.alloc();
    let mut hub = Hub::new(alloc);
    let printer = Printer::new(alloc, StdSink::new(rt.stdout()));
    let Ok(watcher) = Box::new(alloc, printer) else {
        return no_memory(rt);
    };
    let watcher: Box<dyn Watcher> = watcher;
    if hub.add(Area::full(alloc), watcher).is_err() {
        return no_memory(rt);
    }
    run_program(
        waits,
        alloc,
        all,
        &mut FileShelf::new(rt),
        &mut StdSource::new(rt.stdin()),
        &mut StdSink::new(rt.stdout()),
        &mut StdReport::new(rt.stderr()),
        &mut TcpDoor::new(rt),
        &mut RandomNoise::new(rt),
        &mut FileBay::new(rt),
        &mut hub,
    )
}

/// Says that no memory was found before anything was done.
fn no_memory(rt: &HostRuntime) -> ExitCode
    ensures { exit_status result ≡ 7 }
{
    let _ = rt.eprintln("no memory");
    ExitCode::from(7)
}

/// Runs the words of the command line over the machine.
fn run_command_line<R: Wait + Threads + Sync>(waits: &R, rt: &HostRuntime) -> ExitCode
    ensures { (words : List (List ℕ)) × EndsAsRun words (exit_status result) }
{
    match all_words(rt) {
        Ok(all) => run_here(waits, rt, &all),
        Err(AllocError) => no_memory(rt),
    }
}

fn main(rt: HostRuntime) -> ExitCode {
    run_command_line(&rt, &rt)
}

#[cfg(test)]
mod tests;
