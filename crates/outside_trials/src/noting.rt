//! A caller of the parts of a host, who does something behind each link that came.

ghost use Rattle.std.specs.Prelude.{◌≡◌, ◌≤◌, [], length};

use crate::hosts::{Echo, door_of_two};
use link_host::{NoLink, Workers};
use spelling::NoMemory;
use std::alloc::Global;
use std::sync::Wait;
use std::test::Fail;
use std::thread::{Scope, Threads, scope, scope_env};
use willow_outside::{Door, Fault, Link};

/// Accepts a link for each job, until none comes, and notes behind each that came its job.
fn accept_noting<'s, E, R: Wait + Threads + Sync, L: Link + Send + 's, D: Door<L = L>>(
    rt: &'s R,
    threads: &Scope<'s, E>,
    alloc: Global,
    echo: &'s Echo,
    jobs: &[u8],
    door: &mut D,
    mut workers: Workers<L, Echo>,
    mut notes: Vec<u8>,
) -> (Workers<L, Echo>, Vec<u8>)
    requires { (workers.host ≡ echo.now) × (workers.begun ≡ []) × (length jobs.now ≤ workers.room) }
    ensures { length result.0.begun ≤ (D.facts door.new).out }
{
    for job in jobs {
        if let Err(NoLink { job, fault: _ }) = workers.accept(
            rt, threads, alloc, echo, *job, door,
        ) {
            let _ = notes.push(100 + job % 100);
            return (workers, notes);
        }
        let _ = notes.push(*job);
    }
    (workers, notes)
}

/// What the visits handed on, and what was noted.
fn host_noting<R: Wait + Threads + Sync, L: Link + Send, D: Door<L = L>>(
    rt: &R,
    alloc: Global,
    jobs: &[u8],
    door: &mut D,
) -> Result<(Vec<Result<u8, Fault>>, Vec<u8>), NoMemory> {
    let echo = &Echo;
    let workers = Workers::with_room(alloc, echo, jobs.len())?;
    let notes = Vec::with_capacity(alloc, jobs.len())?;
    let (door, workers, notes) = scope(
        scope_env(),
        rt,
        move |threads| -> (&mut D, Workers<L, Echo>, Vec<u8>)
            requires { (workers.host ≡ echo.now) × (workers.begun ≡ []) × (length jobs.now ≤ workers.room) }
            ensures { (result.0.ghost_name ≡ door.entry.ghost_name) × (length result.1.begun ≤ (D.facts result.0.now).out) }
        {
            let (workers, notes) = accept_noting(
                rt, threads, alloc, echo, jobs, door, workers, notes,
            );
            (door, workers, notes)
        },
    );
    Ok((workers.finish(rt, door), notes))
}

#[test]
fn something_is_done_behind_each_link(rt: HostRuntime) -> Result<(), Fail> {
    let alloc = rt.alloc();
    for (jobs, noted) in [
        ([1, 2].as_slice(), [1, 2].as_slice()),
        ([1, 2, 3].as_slice(), [1, 2, 103].as_slice()),
    ] {
        let mut door = door_of_two(alloc, 9)?;
        let (partings, notes) = host_noting(&rt, alloc, jobs, &mut door)?;
        assert!(rt; partings.as_slice() == [Ok(5), Ok(6)].as_slice());
        assert!(rt; notes.as_slice() == noted);
        assert!(rt; door.back().len() == 2);
        assert!(rt; door.back()[1].held() == [6, 2].as_slice());
    }
    Ok(())
}
