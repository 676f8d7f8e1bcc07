//! The lengths of logs to which rows are offered.

use crate::runs::{by_one, by_threads, only_made};
use std::alloc::Global;
use std::sync::Wait;
use std::thread::Threads;

// One run.
fn run<W: Threads + Wait + Sync>(
    rt: &W,
    alloc: Global,
    taker: &str,
    passes: u32,
    count: u32,
) -> Option<u32> {
    match taker {
        "cell" => by_threads(rt, alloc, passes, count),
        "state" => by_one(alloc, passes, count),
        "made" => only_made(alloc, passes, count),
        _ => None,
    }
}

/// The least and the greatest length of so many runs; none where the numbers are not three, or for want of memory.
pub(crate) fn lengths<W: Threads + Wait + Sync>(
    rt: &W,
    alloc: Global,
    taker: &str,
    numbers: &str,
) -> Option<(u32, u32)> {
    let (passes, numbers) = numbers.split_once(' ')?;
    let (count, rounds) = numbers.split_once(' ')?;
    let passes = passes.parse::<u32>().ok()?;
    let count = count.parse::<u32>().ok()?;
    let rounds = rounds.parse::<u32>().ok()?;
    let (mut least, mut greatest) = (u32::MAX, 0);
    for _ in 0..rounds {
        let length = run(rt, alloc, taker, passes, count)?;
        least = least.min(length);
        greatest = greatest.max(length);
    }
    Some((least, greatest))
}
