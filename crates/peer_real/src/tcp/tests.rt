//! What no clause says of links over TCP: that bytes come as they were sent, and that no wait is without an end.

use super::{PATIENCE, TcpDoor, TcpLink};
use std::alloc::Global;
use std::net::{Net, TcpListener, TcpStream};
use std::test::Fail;
use std::thread;
use std::time::Duration;
use willow_outside::{Door, Fault, Link};

/// How many bytes go each way.
const COUNT: usize = 300_000;

/// How many bytes are written before the first is read.
const AT_ONCE: usize = 20_000;

/// How many bytes go one way before as many come.
const PIECE: usize = 10_000;

/// Listens at a place of this machine that is free, and tells which.
fn listen_somewhere<N: Net<Listener = TcpListener, Stream = TcpStream> + AllocGlobal + Drop>(
    alloc: Global,
    door: &mut TcpDoor<N>,
) -> Result<String, Fault> {
    door.listen("127.0.0.1:0")?;
    let listener = door.listener.as_ref().ok_or(Fault::Failed)?;
    match listener.local_addr() {
        Ok(place) => Ok(format!(in alloc; "{place}")?),
        Err(_) => Err(Fault::Failed),
    }
}

/// Writes all of some bytes, of which each write takes at least one.
fn write_all(link: &mut TcpLink, bytes: &[u8]) -> Result<(), Fault> {
    let mut rest = bytes;
    for _ in 0..bytes.len() {
        if !rest.is_empty() {
            rest = &rest[link.write(rest)?..];
        }
    }
    Ok(())
}

/// Whether the next bytes that come are these.
fn reads(link: &mut TcpLink, wanted: &[u8]) -> Result<bool, Fault> {
    let mut buf = [0u8; 4096];
    let mut rest = wanted;
    for _ in 0..wanted.len() {
        let room = rest.len().min(buf.len());
        let came = link.read(&mut buf[..room])?;
        if buf[..came] != rest[..came] {
            return Ok(false);
        }
        rest = &rest[came..];
    }
    Ok(rest.is_empty())
}

/// Whether these bytes come one at a time, and then the end, and whether some waited in the link meanwhile.
fn come_by_one(link: &mut TcpLink, wanted: &[u8]) -> Result<bool, Fault> {
    let mut byte = [0u8];
    let mut waited = false;
    for want in wanted {
        if link.read(&mut byte)? != 1 || byte[0] != *want {
            return Ok(false);
        }
        waited |= !link.stream.buffer().is_empty();
    }
    Ok(waited && link.read(&mut byte)? == 0)
}

/// Bytes that rest on the side that sends them.
fn bytes_of(alloc: Global, side: u8, count: usize) -> Result<Vec<u8>, Fault> {
    let mut bytes = Vec::new(alloc);
    for at in 0..count {
        bytes.push((at % 251) as u8 ^ (at / 251 % 256) as u8 ^ side)?;
    }
    Ok(bytes)
}

/// Sends the bytes in pieces, and tells whether as many came each time, and those wanted.
fn talk(link: &mut TcpLink, sent: &[u8], wanted: &[u8]) -> Result<bool, Fault> {
    for (piece, want) in sent.chunks(PIECE).zip(wanted.chunks(PIECE)) {
        write_all(link, piece)?;
        if !reads(link, want)? {
            return Ok(false);
        }
    }
    Ok(true)
}

/// How many reads and writes failed and how many ends came.
fn counts(link: &TcpLink) -> (u64, u64, u64) {
    (link.read_faults, link.write_faults, link.ends)
}

#[test]
fn many_bytes_go_both_ways(rt: HostRuntime) -> Result<(), Fail> {
    let near = bytes_of(rt.alloc(), 0x00, COUNT)?;
    let far = bytes_of(rt.alloc(), 0xff, COUNT)?;
    let mut door = TcpDoor::new(&rt);
    let place = listen_somewhere(rt.alloc(), &mut door)?;
    let answers = || -> Result<(bool, (u64, u64, u64)), Fault> {
        let mut link = door.accept()?;
        let right = talk(&mut link, &far, &near)?;
        Ok((right, counts(&link)))
    };
    let calls = || -> Result<(bool, (u64, u64, u64)), Fault> {
        let mut link = TcpDoor::new(&rt).connect(place.as_str())?;
        let right = talk(&mut link, &near, &far)?;
        Ok((right, counts(&link)))
    };
    let (answered, called) = thread::join(&rt, answers, calls);
    assert!(rt; answered == Ok((true, (0, 0, 0))));
    assert!(rt; called == Ok((true, (0, 0, 0))));
    Ok(())
}

#[test]
fn a_link_ends_where_the_other_side_goes(rt: HostRuntime) -> Result<(), Fail> {
    let mut door = TcpDoor::new(&rt);
    assert!(rt; door.accept().is_err());
    let place = listen_somewhere(rt.alloc(), &mut door)?;
    let mut near = TcpDoor::new(&rt).connect(place.as_str())?;
    let mut far = door.accept()?;
    write_all(&mut near, &[1, 2, 3])?;
    assert!(rt; reads(&mut far, &[1, 2, 3]) == Ok(true));
    write_all(&mut far, &[4, 5])?;
    door.give_back(far);
    assert!(rt; reads(&mut near, &[4, 5]) == Ok(true));
    assert!(rt; near.read(&mut [0; 3]) == Ok(0));
    assert_eq!(rt; counts(&near), (0, 0, 1));
    assert_eq!(rt; (door.accepts, door.faults, door.out), (2, 1, 0));
    Ok(())
}

#[test]
fn bytes_are_read_one_at_a_time(rt: HostRuntime) -> Result<(), Fail> {
    let bytes = bytes_of(rt.alloc(), 0x00, AT_ONCE)?;
    let mut door = TcpDoor::new(&rt);
    let place = listen_somewhere(rt.alloc(), &mut door)?;
    let mut near = TcpDoor::new(&rt).connect(place.as_str())?;
    let mut far = door.accept()?;
    write_all(&mut near, &bytes)?;
    drop(near);
    assert!(rt; come_by_one(&mut far, &bytes) == Ok(true));
    Ok(())
}

#[test]
fn a_closed_port_is_a_fault(rt: HostRuntime) {
    let mut door = TcpDoor::new(&rt);
    assert!(rt; matches!(door.connect("127.0.0.1:1"), Err(Fault::Failed)));
    assert_eq!(rt; (door.accepts, door.faults, door.out), (0, 1, 0));
}

#[test]
fn a_silent_peer_is_a_fault(rt: HostRuntime) -> Result<(), Fail> {
    let mut door = TcpDoor::new(&rt);
    let place = listen_somewhere(rt.alloc(), &mut door)?;
    let stream = TcpStream::connect(&rt, place.as_str())?;
    let mut near = TcpLink::within(rt.alloc(), stream, Duration::from_millis(50))?;
    let far = door.accept()?;
    assert_eq!(rt; near.read(&mut [0; 3]), Err(Fault::Failed));
    let piece = [0u8; 65_536];
    assert!(rt; (0..10_000).any(|_| near.write(&piece) == Err(Fault::Failed)));
    assert_eq!(rt; counts(&near), (1, 1, 0));
    let stream = far.stream.get_ref();
    for limit in [stream.read_timeout()?, stream.write_timeout()?] {
        assert!(rt; limit == Some(Duration::from_secs(PATIENCE)));
    }
    Ok(())
}
