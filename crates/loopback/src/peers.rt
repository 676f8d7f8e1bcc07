//! Peers over TCP that are no callers: they say some bytes, hear some, and go.

use peer_real::{TcpDoor, TcpLink};
use std::alloc::Global;
use std::sync::atomic::{AtomicU64, Ordering};
use std::thread;
use std::time::Duration;
use willow_outside::{Door, Fault, Link};

// How often it is tried whether somebody listens.
const TRIES: u32 = 10_000;

// So many milliseconds pass between two tries.
const PAUSE: u64 = 5;

// Writes all of some bytes, of which each write takes at least one.
fn write_all<L: Link>(link: &mut L, bytes: &[u8]) -> Result<(), Fault> {
    let mut rest = bytes;
    for _ in 0..bytes.len() {
        if !rest.is_empty() {
            rest = &rest[link.write(rest)?..];
        }
    }
    Ok(())
}

// Reads so many bytes, or all up to the end.
fn read_some<L: Link>(alloc: Global, link: &mut L, count: usize) -> Result<Vec<u8>, Fault> {
    let mut bytes = Vec::new(alloc);
    let mut buf = [0u8; 1000];
    for _ in 0..count {
        let room = count.saturating_sub(bytes.len()).min(buf.len());
        let came = link.read(&mut buf[..room])?;
        bytes.extend_from_slice(&buf[..came])?;
    }
    Ok(bytes)
}

/// Asks for a link again and again until somebody listens at the place, or the one who was to is gone.
pub(crate) fn reach(rt: &HostRuntime, place: &str, gone: &AtomicU64) -> Result<TcpLink, Fault> {
    for _ in 0..TRIES {
        if let Ok(link) = TcpDoor::new(rt).connect(place) {
            return Ok(link);
        }
        if gone.load(Ordering::SeqCst) != 0 {
            return Err(Fault::Failed);
        }
        thread::sleep(rt, Duration::from_millis(PAUSE));
    }
    Err(Fault::Failed)
}

/// Says these bytes at the place, hears so many, and goes.
pub(crate) fn speak(
    rt: &HostRuntime,
    place: &str,
    said: &[u8],
    count: usize,
) -> Result<Vec<u8>, Fault> {
    let mut link = TcpDoor::new(rt).connect(place)?;
    write_all(&mut link, said)?;
    read_some(rt.alloc(), &mut link, count)
}
