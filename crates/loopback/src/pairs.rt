//! A server and one who calls it, in two threads.

use crate::given::Given;
use crate::run::{Side, over, serve_words, sync_words};
use std::alloc::{AllocError, Global};
use std::sync::Wait;
use std::thread;
use std::thread::Threads;
use willow_outside::Door;

// A place that is not looked at.
const PLACE: &str = "there:1";

/// Runs both, each over its door, with images of forty rows of which the server's has a later one, and tells what came.
pub(crate) fn pair_lines<R: Wait + Threads + Sync, D: Door + Send + Drop>(
    rt: &R,
    alloc: Global,
    given: &Given,
    mut near: D,
    mut far: D,
) -> Result<String, AllocError> {
    let caller = Side {
        given,
        image: "forty",
        draws: "caller-draw",
    };
    let server = Side {
        given,
        image: "later",
        draws: "server-draws",
    };
    let (called, served) = thread::join(
        rt,
        || over(rt, alloc, &sync_words(PLACE), caller, &mut near),
        || over(rt, alloc, &serve_words(PLACE, "1"), server, &mut far),
    );
    let called = called?.lines(alloc, "over a pair, the caller")?;
    let served = served?.lines(alloc, "over a pair, the server")?;
    format!(in alloc; "{called}{served}")
}
