//! Two threads over a link, and links of two threads with one gate.

use paired_links::{GateLink, pair};
use std::alloc::Global;
use std::sync::Arc;
use std::sync::atomic::{AtomicU64, Ordering};
use std::test::Fail;
use std::thread;
use willow_outside::{Door, Fault, Link, MemDoor, MemLink};

/// How many bytes are echoed.
const COUNT: usize = 100_000;

/// Writes all of some bytes, of which each write takes at least one.
fn write_all<L: Link>(link: &mut L, bytes: &[u8]) -> Result<(), Fault> {
    let mut rest = bytes;
    for _ in 0..bytes.len() {
        if !rest.is_empty() {
            rest = &rest[link.write(rest)?..];
        }
    }
    Ok(())
}

/// Whether the next bytes that come are these.
fn reads<L: Link>(link: &mut L, wanted: &[u8]) -> Result<bool, Fault> {
    let mut buf = [0u8; 1000];
    let mut rest = wanted;
    for _ in 0..wanted.len() {
        let room = rest.len().min(buf.len());
        let came = link.read(&mut buf[..room])?;
        if buf[..came] != rest[..came] {
            return Ok(false);
        }
        rest = &rest[came..];
    }
    Ok(rest.is_empty())
}

/// Writes back all that comes up to the end, and tells how many bytes came.
fn echo<L: Link>(mut link: L) -> Result<usize, Fault> {
    let mut buf = [0u8; 777];
    let mut count = 0usize;
    for _ in 0..=COUNT {
        let came = link.read(&mut buf)?;
        if came == 0 {
            return Ok(count);
        }
        write_all(&mut link, &buf[..came])?;
        count = count.saturating_add(came);
    }
    Err(Fault::Failed)
}

/// Writes the bytes in pieces of a thousand, and tells whether each came back as it was.
fn is_echoed<L: Link>(mut link: L, bytes: &[u8]) -> Result<bool, Fault> {
    for piece in bytes.chunks(1000) {
        write_all(&mut link, piece)?;
        if !reads(&mut link, piece)? {
            return Ok(false);
        }
    }
    Ok(true)
}

/// Bytes of which no two pieces of a thousand are the same.
fn many_bytes(alloc: Global) -> Result<Vec<u8>, Fault> {
    let mut bytes = Vec::new(alloc);
    for at in 0..COUNT {
        bytes.push(((at % 251) ^ (at / 251 % 256)) as u8)?;
    }
    Ok(bytes)
}

#[test]
fn two_threads_echo(rt: HostRuntime) -> Result<(), Fail> {
    let bytes = many_bytes(rt.alloc())?;
    let (near, far) = pair(&rt, rt.alloc())?;
    let (came_back, came) = thread::join(&rt, || is_echoed(near, &bytes), move || echo(far));
    assert!(rt; came_back == Ok(true));
    assert!(rt; came == Ok(COUNT));
    Ok(())
}

#[test]
fn the_end_comes_behind_what_is_left(rt: HostRuntime) -> Result<(), Fail> {
    let alloc = rt.alloc();
    let (near, far) = pair(&rt, alloc)?;
    let mut near_door = MemDoor::new(alloc, vec![in alloc; near]?, vec![in alloc]?);
    let mut far_door = MemDoor::new(alloc, vec![in alloc; far]?, vec![in alloc]?);
    let mut near = near_door.connect("here")?;
    let mut far = far_door.accept()?;
    assert!(rt; far.read(&mut []) == Ok(0));
    assert!(rt; near.write(&[1, 2, 3, 4, 5]) == Ok(5));
    assert!(rt; near.write(&[]) == Ok(0));
    drop(near);
    let mut buf = [0u8; 4];
    for want in [4, 1, 0, 0] {
        assert_eq!(rt; far.read(&mut buf), Ok(want));
    }
    assert!(rt; buf == [5, 2, 3, 4]);
    assert!(rt; far.write(&[6]) == Ok(1));
    far_door.give_back(far);
    assert!(rt; far_door.back()[0].taken() == [1, 2, 3, 4, 5].as_slice());
    assert!(rt; far_door.back()[0].held() == [6].as_slice());
    Ok(())
}

/// A link with three bytes to read that moves at most four a call, behind the gate.
fn behind(
    alloc: Global,
    gate: &Arc<AtomicU64>,
    opens_at: u64,
    turns: u64,
) -> Result<GateLink, Fault> {
    let link = MemLink::new(alloc, vec![in alloc; 1, 2, 3]?, vec![in alloc]?, 4);
    Ok(GateLink::new(link, gate.clone()?, opens_at, turns))
}

#[test]
fn a_gate_opens_with_the_last_byte(rt: HostRuntime) -> Result<(), Fail> {
    let alloc = rt.alloc();
    let gate = Arc::new(alloc, AtomicU64::new(0))?;
    let mut opens = behind(alloc, &gate, 6, 0)?;
    let mut waits = behind(alloc, &gate, 0, 1000)?;
    let mut buf = [0u8; 2];
    assert!(rt; opens.read(&mut buf) == Ok(2));
    for (piece, took, word) in [
        ([7, 8, 9, 10, 11].as_slice(), 4, 0),
        ([11].as_slice(), 1, 0),
        ([12].as_slice(), 1, 1),
    ] {
        assert!(rt; waits.read(&mut buf) == Err(Fault::Failed));
        assert!(rt; opens.write(piece) == Ok(took));
        assert_eq!(rt; gate.load(Ordering::SeqCst), word);
    }
    assert!(rt; waits.read(&mut buf) == Ok(2));
    assert!(rt; opens.held() == [7, 8, 9, 10, 11, 12].as_slice());
    Ok(())
}

#[test]
fn a_thread_waits_for_the_gate(rt: HostRuntime) -> Result<(), Fail> {
    let alloc = rt.alloc();
    let gate = Arc::new(alloc, AtomicU64::new(0))?;
    let mut opens = behind(alloc, &gate, 6, 0)?;
    let mut waits = behind(alloc, &gate, 0, 1_000_000_000)?;
    let (came, wrote) = thread::join(
        &rt,
        move || waits.read(&mut [0; 3]),
        move || write_all(&mut opens, &[0; 6]),
    );
    assert!(rt; came == Ok(3));
    assert!(rt; wrote == Ok(()));
    Ok(())
}
