//! The work that `bench/` times. Each word is a benchmark, its name with its numbers, and they are run one after the other:
//!
//!     blocks 1000         so many rounds: of digests of a block each;
//!     rows 1000           of the digests that a row of the generator needs;
//!     chains 10           of the chains of a leaf, side by side;
//!     lists 10            of lists of messages, side by side;
//!     make 8              of keys of height 5;
//!     make-on 8           of the same on all processors, or of height 10 as make10-on;
//!     sign 8              of signatures by such a key;
//!     verify 500          of verifying one of them
//!     rising 1000         an index of recency of so many items by rising time, or by falling time as falling
//!     newest 1000         so many reads of the newest of its items
//!     cell 2 200 1000     so many passes of a cell, each on a thread of its own, offer so many rows each, so often anew
//!     state 2 200 1000    the same rows, into a state alone
//!     made 2 200 1000     the rows are only made
//!
//! Of each it prints what came out, so that nothing is left out of a build: the front of the last digest or a count, the
//! sum of the times that were read, or the least and the greatest length of a log. It promises nothing but that it is safe
//! and, where no other thread is waited for, ends: what it calls is proved where it stands.
#![tactic(auto)]

mod cells;
mod digests;
mod filled;
mod hashes;
mod keys;
mod lanes;
mod rows;
mod runs;
mod work;

use std::alloc::Global;
use std::process::ExitCode;
use std::sync::Wait;
use std::thread::Threads;
use std::{env, io};

// The line of what came out; none for want of memory.
fn line_of(alloc: Global, out: u64) -> Option<String> {
    format!(in alloc; "{out}").ok()
}

// The line of the lengths that came out.
fn line_of_lengths(alloc: Global, (least, greatest): (u32, u32)) -> Option<String> {
    format!(in alloc; "logs of {least} to {greatest} rows").ok()
}

// The line of a benchmark; none where the word is none, or for want of memory.
fn answer<W: Threads + Wait + Sync>(rt: &W, alloc: Global, word: &str) -> Option<String> {
    let (name, numbers) = word.split_once(' ')?;
    match name {
        "cell" | "state" | "made" => {
            line_of_lengths(alloc, cells::lengths(rt, alloc, name, numbers)?)
        }
        "rising" | "falling" | "newest" => {
            line_of(
                alloc,
                filled::read(alloc, name, numbers.parse::<u32>().ok()?)?,
            )
        }
        _ => line_of(
            alloc,
            hashes::run(rt, alloc, name, numbers.parse::<u32>().ok()?)?,
        ),
    }
}

// The words behind the program's name; none where they are no text.
fn words(rt: &HostRuntime) -> Vec<String> {
    match env::args(rt) {
        Ok(args) => args
            .skip(1)
            .collect(rt.alloc())
            .unwrap_or(Vec::new(rt.alloc())),
        Err(_) => Vec::new(rt.alloc()),
    }
}

// Tells how to call the program.
fn tell_usage(rt: &HostRuntime) -> io::Result<ExitCode> {
    println!(rt; "usage: words as 'blocks 1', 'rising 4' and 'cell 2 200 1'")?;
    Ok(ExitCode::from(2))
}

fn main(rt: HostRuntime) -> io::Result<ExitCode> {
    let words = words(&rt);
    for word in &words {
        match answer(&rt, rt.alloc(), word.as_str()) {
            Some(line) => println!(rt; "{line}")?,
            None => return tell_usage(&rt),
        }
    }
    Ok(ExitCode::from(0))
}
