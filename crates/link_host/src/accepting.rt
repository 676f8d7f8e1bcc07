//! Links that are accepted one after the other.

ghost use Rattle.std.specs.Prelude.{◌≡◌, ◌≤◌, All, [], length};
ghost use Rattle.link_host.specs.Begun.{IsAccepted};

use crate::{Host, NoLink, Workers};
use std::alloc::Global;
use std::collections::VecDeque;
use std::sync::Wait;
use std::thread::{Scope, Threads};
use willow_outside::{Door, Fault, Link};

/// The workers of the links that came, the jobs for which none came, and why.
#[derive(Drop)]
pub(crate) struct Accepted<L: Link + Send, H: Host<L>> {
    pub(crate) workers: Workers<L, H>,
    pub(crate) left: VecDeque<H::Job>,
    pub(crate) why: Option<Fault>,
}

/// Accepts a link for each job in order and starts its worker, until an accept fails. There is room for all workers.
#[tactic(auto, using(crate::proofs::Coming::one_more_came, crate::proofs::Coming::none_came_for))]
pub(crate) fn accept_all<
    's,
    E,
    R: Wait + Threads + Sync,
    L: Link + Send + 's,
    D: Door<L = L>,
    H: Host<L>,
>(
    rt: &'s R,
    threads: &Scope<'s, E>,
    alloc: Global,
    host: &'s H,
    jobs: Vec<H::Job>,
    door: &mut D,
    mut workers: Workers<L, H>,
) -> Accepted<L, H>
    requires jobs { All (H.may host.now) jobs.items }
    requires workers { (workers.host ≡ host.now) × (workers.begun ≡ []) × (length jobs.items ≤ workers.room) }
    ensures host { result.workers.host ≡ host.now }
    ensures accepted { IsAccepted jobs.items (D.facts door.old) (D.facts door.new) result.workers.begun result.left.items result.why }
{
    let mut left = VecDeque::from(jobs);
    while let Some(job) = left.pop_front() {
        if let Err(NoLink { job, fault }) = workers.accept(rt, threads, alloc, host, job, door) {
            left.push_front_reserved(job);
            return Accepted {
                workers,
                left,
                why: Some(fault),
            };
        }
    }
    Accepted {
        workers,
        left,
        why: None,
    }
}
