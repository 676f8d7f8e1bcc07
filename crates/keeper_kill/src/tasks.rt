//! Tasks by their words.

use crate::keeping::keep_slices;
use crate::looking::{tell_count, tell_rows};
use crate::opening::open_or_begin;
use crate::stop::Stop;
use std::alloc::Global;

// The name of a file and two numbers.
fn name_and_numbers(words: &str) -> Option<(&str, u32, u32)> {
    let (name, numbers) = words.split_once(' ')?;
    let (slices, size) = numbers.split_once(' ')?;
    Some((name, slices.parse::<u32>().ok()?, size.parse::<u32>().ok()?))
}

// Keeps slices in a log, and tells how many rows it holds at first and behind each.
fn keep(rt: &HostRuntime, alloc: Global, words: &str) -> Result<(), Stop> {
    let Some((name, slices, size)) = name_and_numbers(words) else {
        return Err(Stop::NoTask);
    };
    let (mut keeper, held) = open_or_begin(rt, alloc, name)?;
    println!(rt; "holds {held}")?;
    keep_slices(rt, alloc, &mut keeper, held as u64, slices, size)
}

/// Does the task of the word.
pub(crate) fn run_task(rt: &HostRuntime, alloc: Global, word: &str) -> Result<(), Stop> {
    match word.split_once(' ') {
        Some(("keep", words)) => keep(rt, alloc, words),
        Some(("check", name)) => tell_rows(rt, alloc, name),
        Some(("open", name)) => tell_count(rt, alloc, name),
        _ => Err(Stop::NoTask),
    }
}
