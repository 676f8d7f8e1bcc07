//! Keeps rows of the generator in a log that is a file of the current folder, to be killed at any moment by
//! `bench/kill.py` and looked at then. Each word is a task, its name with the name of the file, and they are done one after
//! the other:
//!
//!     keep log 3 256      opens the log, which is begun where the file holds none, tells how many rows it holds, and keeps
//!                         so many slices of so many rows each, the next ones of the generator; behind each that is kept it
//!                         tells at once how many rows the file holds then
//!     check log           tells how many rows the log holds, and whether these are the first of the generator, in order
//!     open log            tells how many rows the log holds
//!
//! What a crash may leave is the contract of `log_keeper`. This program is there to try it on the files of a machine, of
//! which no clause tells anything.
#![tactic(auto)]

mod keeping;
mod looking;
mod made;
mod opening;
mod stop;
mod tasks;

use std::process::ExitCode;
use std::{env, io};
use stop::Stop;
use tasks::run_task;

// The words behind the program's name; none where they are no text.
fn words(rt: &HostRuntime) -> Vec<String> {
    match env::args(rt) {
        Ok(args) => args
            .skip(1)
            .collect(rt.alloc())
            .unwrap_or(Vec::new(rt.alloc())),
        Err(_) => Vec::new(rt.alloc()),
    }
}

// Tells why a task was not done.
fn tell(rt: &HostRuntime, why: Stop) -> io::Result<ExitCode> {
    eprintln!(rt; "{why}")?;
    Ok(ExitCode::from(1))
}

fn main(rt: HostRuntime) -> io::Result<ExitCode> {
    let words = words(&rt);
    for word in &words {
        match run_task(&rt, rt.alloc(), word.as_str()) {
            Ok(()) => (),
            Err(why) => return tell(&rt, why),
        }
    }
    Ok(ExitCode::from(0))
}
