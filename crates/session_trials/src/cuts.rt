//! What a side hears, cut before each of its bytes.

use crate::tests::{met, run_on, written};
use std::alloc::Global;
use std::sync::Wait;
use std::test::*;
use std::thread::Threads;
use sync_link::SessionEnd;
use sync_msg::Role;

// Whether the own side in this role ends early, behind just these bytes.
fn ends_early<R: Wait + Threads + Sync>(
    rt: &R,
    alloc: Global,
    role: Role,
    heard: &[u8],
) -> Option<bool> {
    let came = Vec::from_slice(alloc, heard).ok()?;
    let ran = run_on(rt, alloc, role, came, 1_000_000)?;
    let at = heard.len() as u64;
    Some(ran.answer == Err(SessionEnd::ClosedEarly { at }))
}

// Whether it does wherever these bytes are cut.
fn ends_early_everywhere<R: Wait + Threads + Sync>(
    rt: &R,
    alloc: Global,
    role: Role,
    heard: &[u8],
) -> bool {
    for at in 0..heard.len() {
        if ends_early(rt, alloc, role, &heard[..at]) != Some(true) {
            return false;
        }
    }
    true
}

// Whether it does on all that the other says, which speaks this version.
fn all_cuts_are_told<R: Wait + Threads + Sync>(
    rt: &R,
    alloc: Global,
    role: Role,
    version: u8,
) -> Option<bool> {
    let met = met(rt, alloc, role, version)?;
    let (_, heard) = written(&met, role);
    Some(ends_early_everywhere(rt, alloc, role, heard))
}

static MEETINGS: [(Role, u8); 4] = [
    (Role::Caller, 1),
    (Role::Caller, 2),
    (Role::Answerer, 1),
    (Role::Answerer, 2),
];

#[test]
fn cuts(rt: HostRuntime) {
    for (role, version) in &MEETINGS {
        assert!(rt; all_cuts_are_told(&rt, rt.alloc(), *role, *version) == Some(true));
    }
}
