//! That calls can succeed, and what the clauses say of them at some values.

use crate::shelves::holds;
use spelling::End;
use std::collections::BTreeMap;
use willow_outside::{
    ByteLink, Door, Fault, Link, MemDoor, MemLink, MemNoise, MemShelf, MemSink, MemSource, Noise,
    ReadEnd, Shelf, Sink, Source, SureShelf, SureSink, SureSource, read_all, write_whole,
};

#[test]
fn a_source_is_read_in_pieces(rt: HostRuntime) -> Result<(), Fault> {
    let alloc = rt.alloc();
    let mut buf = [0u8; 4];
    let mut source = MemSource::new(alloc, vec![in alloc; 1, 2, 3]?, vec![in alloc; 2]?, 2);
    for want in [Ok(2), Err(Fault::Failed), Ok(1), Ok(0)] {
        assert_eq!(rt; source.read(&mut buf), want);
    }
    assert_eq!(rt; buf, [3, 2, 0, 0]);
    let mut sure = SureSource::new(alloc, vec![in alloc; 7, 8]?);
    assert_eq!(rt; sure.read(&mut buf), Ok(2));
    assert_eq!(rt; buf, [7, 8, 0, 0]);
    Ok(())
}

#[test]
fn a_sink_takes_pieces(rt: HostRuntime) -> Result<(), Fault> {
    let alloc = rt.alloc();
    let mut sink = MemSink::new(alloc, vec![in alloc; 9]?, vec![in alloc; 3]?, 2);
    assert_eq!(rt; write_whole(&mut sink, &[1, 2, 3]), Ok(()));
    assert_eq!(rt; write_whole(&mut sink, &[4, 5]), Err(Fault::Failed));
    assert_eq!(rt; sink.write(&[6]), Ok(1));
    assert!(rt; sink.held() == [9, 1, 2, 3, 6].as_slice());
    let mut sure = SureSink::new(alloc, vec![in alloc; 9]?);
    assert_eq!(rt; write_whole(&mut sure, &[1, 2, 3]), Ok(()));
    assert!(rt; sure.held() == [9, 1, 2, 3].as_slice());
    Ok(())
}

#[test]
fn all_bytes_are_read_within_a_limit(rt: HostRuntime) -> Result<(), Fault> {
    let alloc = rt.alloc();
    for (limit, fails, want) in [
        (3, 9, None),
        (2, 9, Some(ReadEnd::TooLong)),
        (3, 2, Some(ReadEnd::Failed)),
        (3, 4, Some(ReadEnd::Failed)),
    ] {
        let mut source = MemSource::new(alloc, vec![in alloc; 1, 2, 3]?, vec![in alloc; fails]?, 1);
        match (read_all(alloc, &mut source, limit), want) {
            (Ok(bytes), None) => assert!(rt; bytes.as_slice() == [1, 2, 3].as_slice()),
            (Err(End::Refused(end)), Some(want)) => assert_eq!(rt; end, want),
            _ => assert!(rt; false, "limit {limit}, call {fails} fails"),
        }
    }
    Ok(())
}

#[test]
fn a_shelf_keeps_what_is_put(rt: HostRuntime) -> Result<(), Fault> {
    let alloc = rt.alloc();
    let mut contents = BTreeMap::new(alloc);
    contents.insert(String::from_str(alloc, "a")?, vec![in alloc; 1, 2]?)?;
    let mut shelf = MemShelf::new(alloc, contents, vec![in alloc; 2, 3]?);
    assert!(rt; holds(&mut shelf, "a", Some(&[1, 2])));
    assert!(rt; shelf.get("a") == Err(Fault::Failed));
    assert!(rt; shelf.put("a", &[3]) == Err(Fault::Failed));
    assert!(rt; holds(&mut shelf, "a", Some(&[3])));
    assert!(rt; shelf.put("b", &[4]) == Ok(()));
    assert!(rt; holds(&mut shelf, "b", Some(&[4])));
    assert!(rt; holds(&mut shelf, "c", None));
    let mut sure = SureShelf::new(alloc, BTreeMap::new(alloc));
    assert!(rt; sure.put("a", &[5]) == Ok(()));
    assert!(rt; holds(&mut sure, "a", Some(&[5])));
    assert!(rt; holds(&mut sure, "b", None));
    Ok(())
}

#[test]
fn noise_gives_its_draws(rt: HostRuntime) -> Result<(), Fault> {
    let alloc = rt.alloc();
    let mut noise = MemNoise::new(
        alloc,
        vec![in alloc; [1u8; 32], [2u8; 32]]?,
        vec![in alloc; 2]?,
    );
    for want in [
        Ok([1u8; 32]),
        Err(Fault::Failed),
        Ok([2u8; 32]),
        Err(Fault::Failed),
    ] {
        assert!(rt; noise.words() == want);
    }
    Ok(())
}

#[test]
fn links_go_out_and_come_back(rt: HostRuntime) -> Result<(), Fault> {
    let alloc = rt.alloc();
    let first = MemLink::new(alloc, vec![in alloc; 1, 2, 3]?, vec![in alloc; 3]?, 2);
    let second = MemLink::new(alloc, vec![in alloc]?, vec![in alloc]?, 9);
    let mut door = MemDoor::new(alloc, vec![in alloc; first, second]?, vec![in alloc; 3]?);
    assert!(rt; door.listen("here") == Ok(()));
    let mut link = door.accept()?;
    let mut buf = [0u8; 4];
    assert!(rt; link.read(&mut buf) == Ok(2));
    assert!(rt; buf == [1, 2, 0, 0]);
    assert!(rt; link.write(&[7, 8, 9]) == Ok(2));
    assert!(rt; link.read(&mut buf) == Err(Fault::Failed));
    assert!(rt; link.read(&mut buf) == Ok(1));
    assert!(rt; link.read(&mut buf) == Ok(0));
    door.give_back(link);
    assert!(rt; door.accept().is_err());
    let other = door.connect("there")?;
    door.give_back(other);
    assert!(rt; door.accept().is_err());
    assert!(rt; door.back().len() == 2);
    assert!(rt; door.back()[0].held() == [7, 8].as_slice());
    Ok(())
}

#[test]
fn a_link_gives_a_byte_at_a_time(rt: HostRuntime) -> Result<(), Fault> {
    let alloc = rt.alloc();
    let mut buf = [0u8; 4];
    let link = MemLink::new(alloc, vec![in alloc; 1, 2, 3]?, vec![in alloc]?, 9);
    let mut link = ByteLink::new(link);
    assert!(rt; link.read(&mut buf[..0]) == Ok(0));
    assert!(rt; link.read(&mut buf) == Ok(1));
    assert!(rt; link.write(&[7, 8]) == Ok(2));
    let mut link = link.into_inner();
    assert!(rt; link.read(&mut buf[1..]) == Ok(2));
    assert!(rt; buf == [1, 2, 3, 0]);
    assert!(rt; link.held() == [7, 8].as_slice());
    Ok(())
}
