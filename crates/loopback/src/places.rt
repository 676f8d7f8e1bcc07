//! A server and its peers over TCP, at a place of this machine.

use crate::given::Given;
use crate::peers::{reach, speak};
use crate::run::{Outcome, Side, measure, over, serve_words, sync_words};
use peer_real::TcpDoor;
use std::alloc::AllocError;
use std::net::TcpListener;
use std::sync::Wait;
use std::sync::atomic::{AtomicU64, Ordering};
use std::thread::Threads;
use std::{io, thread};
use willow_outside::{Door, Fault};

// How many places are tried, should others take them.
const PLACES: u32 = 5;

// How many peers come.
const PEERS: u32 = 8;

/// What came to the peers.
#[derive(Drop)]
struct Called {
    heard: Vec<u8>,
    first: Outcome,
    second: Outcome,
}

// A place of this machine at which nobody listens.
fn free_place(rt: &HostRuntime) -> io::Result<String> {
    let listener = TcpListener::bind(rt, "127.0.0.1:0")?;
    let place = listener.local_addr()?;
    Ok(format!(in rt.alloc(); "{place}")?)
}

// Calls the one at the place with an image.
fn call<R: Wait + Threads + Sync>(
    waits: &R,
    rt: &HostRuntime,
    given: &Given,
    place: &str,
    image: &str,
) -> Result<Outcome, AllocError> {
    let side = Side {
        given,
        image,
        draws: "caller-draw",
    };
    let mut door = TcpDoor::new(rt);
    over(waits, rt.alloc(), &sync_words(place), side, &mut door)
}

// The peers, one after the other: two say nothing, of whom the first stays to the end, two say what is no hello, two go in the
// midst of a message, and two keep to the rules.
fn call_all<R: Wait + Threads + Sync>(
    waits: &R,
    rt: &HostRuntime,
    given: &Given,
    place: &str,
    gone: &AtomicU64,
) -> Result<Called, Fault> {
    let silent = reach(rt, place, gone)?;
    speak(rt, place, &[], 0)?;
    for said in ["noise", "other-noise", "cut"] {
        speak(rt, place, given.bytes(said), 0)?;
    }
    let greeting = given.bytes("greeting").len();
    let heard = speak(rt, place, given.bytes("cut-behind"), greeting)?;
    let first = call(waits, rt, given, place, "back")?;
    let second = call(waits, rt, given, place, "middle")?;
    drop(silent);
    Ok(Called {
        heard,
        first,
        second,
    })
}

// Calls as `call_all` does. Where that fails, as many come and go as the server may still wait for.
fn call_to_the_end<R: Wait + Threads + Sync>(
    waits: &R,
    rt: &HostRuntime,
    given: &Given,
    place: &str,
    gone: &AtomicU64,
) -> Result<Called, Fault> {
    let called = call_all(waits, rt, given, place, gone);
    if called.is_err() {
        for _ in 0..PEERS {
            let _link = TcpDoor::new(rt).connect(place);
        }
    }
    called
}

// Runs the server and its peers, in two threads.
fn meet<R: Wait + Threads + Sync>(
    waits: &R,
    rt: &HostRuntime,
    given: &Given,
    place: &str,
) -> (Result<Outcome, AllocError>, Result<Called, Fault>) {
    let gone = AtomicU64::new(0);
    let side = Side {
        given,
        image: "front",
        draws: "server-draws",
    };
    let serve = || -> Result<Outcome, AllocError> {
        let mut door = TcpDoor::new(rt);
        let served = over(waits, rt.alloc(), &serve_words(place, "8"), side, &mut door);
        gone.store(1, Ordering::SeqCst);
        served
    };
    thread::join(
        waits,
        serve,
        || call_to_the_end(waits, rt, given, place, &gone),
    )
}

// What came to the server and to its peers.
fn lines_of(
    rt: &HostRuntime,
    served: &Outcome,
    called: Result<Called, Fault>,
) -> Result<String, AllocError> {
    let alloc = rt.alloc();
    let server = served.lines(alloc, "over TCP, the server")?;
    let Ok(called) = called else {
        return format!(in alloc; "{server}a link of its peers failed\n");
    };
    let first = called.first.lines(alloc, "the seventh of its peers")?;
    let second = called.second.lines(alloc, "the eighth one")?;
    let heard = measure(alloc, &called.heard)?;
    format!(in alloc; "{server}{first}{second}the sixth one heard {heard}\n")
}

/// Runs the server and its peers at a place that is free, and tells what came.
pub(crate) fn place_lines<R: Wait + Threads + Sync>(
    waits: &R,
    rt: &HostRuntime,
    given: &Given,
) -> io::Result<String> {
    let mut lines = String::new(rt.alloc());
    for _ in 0..PLACES {
        let place = free_place(rt)?;
        let (served, called) = meet(waits, rt, given, place.as_str());
        let served = served?;
        lines = lines_of(rt, &served, called)?;
        if served.report_text() != "read fault\n" {
            break;
        }
    }
    Ok(lines)
}
