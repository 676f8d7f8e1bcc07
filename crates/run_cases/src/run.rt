//! A run over the objects of a case.

use crate::objects::Objects;
use peer_run::peer_run;
use std::alloc::Global;
use std::sync::Wait;
use std::thread::Threads;
use sub_hub::Hub;
use willow_outside::{Bay, Door, Noise, Shelf, Sink, Source};

/// The status of a run. It has no clause, and knows nothing of the objects: so what a run promises is not looked through again
/// for the objects in memory, which takes a check of this program many times as long.
fn status_of<
    R: Wait + Threads + Sync,
    H: Shelf,
    I: Source,
    O: Sink,
    E: Sink,
    D: Door,
    N: Noise,
    B: Bay,
>(
    rt: &R,
    alloc: Global,
    words: &[String],
    shelf: &mut H,
    input: &mut I,
    output: &mut O,
    report: &mut E,
    door: &mut D,
    noise: &mut N,
    bay: &mut B,
) -> u8 {
    // nobody watches
    let mut hub = Hub::new(alloc);
    peer_run(
        rt, alloc, words, shelf, input, output, report, door, noise, bay, &mut hub,
    )
}

/// The status of the run of the words.
pub(crate) fn run<R: Wait + Threads + Sync>(
    rt: &R,
    alloc: Global,
    words: &[String],
    objects: &mut Objects,
) -> u8 {
    status_of(
        rt,
        alloc,
        words,
        &mut objects.shelf,
        &mut objects.input,
        &mut objects.output,
        &mut objects.report,
        &mut objects.door,
        &mut objects.noise,
        &mut objects.bay,
    )
}
