//! Links in memory that are visited, and come back.

ghost use Rattle.std.specs.Prelude.{◌≡◌, ⊤, IfOk};

use crate::counted_door::{CountedDoor, three_accepts};
use link_host::{Host, host_links};
use std::alloc::Global;
use std::sync::Wait;
use std::test::Fail;
use std::thread::Threads;
use willow_outside::{Door, Fault, Link, MemDoor, MemLink};

/// Reads a byte, and writes it back with the job behind it.
pub(crate) struct Echo;

impl<L: Link + Send> Host<L> for Echo {
    type Job = u8;

    type Parting = Result<u8, Fault>;

    ghost may = { λ _ _. ⊤ };

    ghost does = { λ _ _ _ _ _. ⊤ };

    fn visit<R: Wait + Threads + Sync>(
        &self,
        _rt: &R,
        _alloc: Global,
        job: u8,
        link: &mut L,
    ) -> Result<u8, Fault> {
        let mut byte = [0u8];
        link.read(&mut byte)?;
        link.write(&[byte[0], job])?;
        Ok(byte[0])
    }
}

/// A door of which two links may come, that give 5 and 6. The accept of this number, from 1, fails.
pub(crate) fn door_of_two(alloc: Global, fails: u64) -> Result<MemDoor<MemLink>, Fault>
    ensures { IfOk result (λ door. door.accepts ≡ 0) }
{
    let first = MemLink::new(alloc, vec![in alloc; 5]?, vec![in alloc]?, 9);
    let second = MemLink::new(alloc, vec![in alloc; 6]?, vec![in alloc]?, 9);
    Ok(MemDoor::new(
        alloc,
        vec![in alloc; first, second]?,
        vec![in alloc; fails]?,
    ))
}

/// Which accept fails, the jobs, and what is to come of it: the bytes that were read, the jobs left, the fault, and how many
/// accepts were made.
#[derive(Clone, Copy)]
struct Case<'a> {
    fails: u64,
    jobs: &'a [u8],
    read: &'a [u8],
    unused: &'a [u8],
    stopped: Option<Fault>,
    accepts: u32,
}

/// Whether the partings are those bytes, and the links that came back hold each its byte and its job, in order.
fn came(case: &Case<'_>, partings: &[Result<u8, Fault>], back: &[MemLink]) -> bool {
    let count = case.read.len();
    let wanted = case.read.iter().zip(case.jobs);
    partings.len() == count
        && back.len() == count
        && partings
            .iter()
            .zip(case.read)
            .all(|(parting, byte)| *parting == Ok(*byte))
        && back.iter().zip(wanted).all(|(link, (byte, job))| link.held()
            == [*byte, *job].as_slice())
}

/// What comes of one and of two links.
const CASES: [Case<'static>; 5] = [
    Case {
        fails: 9,
        jobs: &[1, 2],
        read: &[5, 6],
        unused: &[],
        stopped: None,
        accepts: 2,
    },
    Case {
        fails: 9,
        jobs: &[1, 2, 3],
        read: &[5, 6],
        unused: &[3],
        stopped: Some(Fault::Failed),
        accepts: 3,
    },
    Case {
        fails: 2,
        jobs: &[1, 2],
        read: &[5],
        unused: &[2],
        stopped: Some(Fault::Failed),
        accepts: 2,
    },
    Case {
        fails: 1,
        jobs: &[1, 2],
        read: &[],
        unused: &[1, 2],
        stopped: Some(Fault::Failed),
        accepts: 1,
    },
    Case {
        fails: 9,
        jobs: &[],
        read: &[],
        unused: &[],
        stopped: None,
        accepts: 0,
    },
];

#[test]
fn links_come_back_in_order(rt: HostRuntime) -> Result<(), Fail> {
    let alloc = rt.alloc();
    for case in CASES {
        let mut door = CountedDoor::new(door_of_two(alloc, case.fails)?);
        let jobs: Vec<u8> = case.jobs.iter().copied().collect(alloc)?;
        let hosted = host_links(&rt, alloc, &Echo, jobs, &mut door)?;
        assert!(rt; came(&case, &hosted.partings, door.back()));
        assert!(rt; hosted.unused.as_slice() == case.unused);
        assert_eq!(rt; hosted.stopped, case.stopped);
        assert_eq!(rt; door.accepts(), case.accepts);
    }
    Ok(())
}

#[test]
fn a_door_counts_its_accepts(rt: HostRuntime) -> Result<(), Fail> {
    let alloc = rt.alloc();
    for (fails, came) in [(2, [false, true, false]), (9, [true, true, false])] {
        let mut door = door_of_two(alloc, fails)?;
        assert!(rt; three_accepts(&mut door) == came);
    }
    Ok(())
}
