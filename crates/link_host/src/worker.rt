//! One visit, on a thread of its own.

ghost use Rattle.std.specs.Prelude.{◌≡◌};
ghost use Rattle.willow_outside.specs.Links.{IsFresh};
ghost use Rattle.link_host.specs.Keeping.{Keeps};

use crate::Host;
use std::alloc::Global;
use std::snapshot::Snapshot;
use std::sync::Wait;
use std::thread::{Promise, PromisedHandle, Scope, SpawnError, Threads};
use willow_outside::Link;

/// A job, and the link that came for it.
#[derive(Drop)]
pub(crate) struct Errand<L: Link + Send, H: Host<L>> {
    pub(crate) job: H::Job,
    pub(crate) link: L,
}

/// A link behind its visit, and what the visit hands on.
#[derive(Drop)]
pub(crate) struct Visited<L: Link + Send, H: Host<L>> {
    pub(crate) link: L,
    pub(crate) parting: H::Parting,
}

/// What a worker promises of the link that it hands back: that the host did with it what it does.
#[derive(Drop)]
pub(crate) struct Pledge<L: Link + Send, H: Host<L>> {
    pub(crate) host: Snapshot<H>,
    pub(crate) job: Snapshot<H::Job>,
    pub(crate) link: Snapshot<L>,
}

impl<L: Link + Send, H: Host<L>> Promise<Visited<L, H>> for Pledge<L, H> {
    ghost kept_by = { λ promise visited. H.does promise.host.value promise.job.value (L.facts promise.link.value) visited.parting (L.facts visited.link) };
}

/// A worker that runs on a thread, or the link of one that ran in place, since no thread started.
#[derive(Drop)]
pub(crate) enum Worker<L: Link + Send, H: Host<L>> {
    Runs(PromisedHandle<Visited<L, H>, Pledge<L, H>>),
    Ran(Visited<L, H>),
}

/// A worker, with its job, and its link as it was handed out.
#[derive(Drop)]
pub(crate) struct Started<L: Link + Send, H: Host<L>> {
    pub(crate) job: Snapshot<H::Job>,
    pub(crate) handed_out: Snapshot<L>,
    pub(crate) worker: Worker<L, H>,
}

// Lets the host visit the link.
fn visit<R: Wait + Threads + Sync, L: Link + Send, H: Host<L>>(
    rt: &R,
    alloc: Global,
    host: &H,
    errand: Errand<L, H>,
) -> Visited<L, H>
    requires { H.may host.now errand.job }
    ensures { H.does host.now errand.job (L.facts errand.link) result.parting (L.facts result.link) }
{
    let Errand { job, mut link } = errand;
    let parting = host.visit(rt, alloc, job, &mut link);
    Visited { link, parting }
}

/// Starts the visit on a thread of the scope, or lets it run in place where no thread starts.
pub(crate) fn start<'s, E, R: Wait + Threads + Sync, L: Link + Send + 's, H: Host<L>>(
    rt: &'s R,
    threads: &Scope<'s, E>,
    alloc: Global,
    host: &'s H,
    errand: Errand<L, H>,
) -> Started<L, H>
    requires may { H.may host.now errand.job }
    requires fresh { IsFresh (L.facts errand.link) }
    ensures job { result.job.value ≡ errand.job }
    ensures link { result.handed_out.value ≡ errand.link }
    ensures keeps { Keeps L.facts H.does host.now result }
{
    let job = Snapshot::of(&errand.job);
    let handed_out = Snapshot::of(&errand.link);
    let promise = Pledge {
        host: Snapshot::of(host),
        job: Snapshot::of(&errand.job),
        link: Snapshot::of(&errand.link),
    };
    match threads.spawn_with(
        promise,
        move || -> Visited<L, H>
            requires { H.may host.now errand.job }
            ensures { H.does host.entry.now errand.job (L.facts errand.link) result.parting (L.facts result.link) }
        { visit(rt, alloc, host, errand) },
    ) {
        Ok(handle) => Started {
            job,
            handed_out,
            worker: Worker::Runs(handle),
        },
        Err(SpawnError { value: run }) => Started {
            job,
            handed_out,
            worker: Worker::Ran(run()),
        },
    }
}

/// Waits for the worker, where it runs.
pub(crate) fn finish<R: Threads, L: Link + Send, H: Host<L>>(
    rt: &R,
    host: &Snapshot<H>,
    started: Started<L, H>,
) -> Visited<L, H>
    requires { Keeps L.facts H.does host.now.value started }
    ensures { H.does host.now.value started.job.value (L.facts started.handed_out.value) result.parting (L.facts result.link) }
{
    let Started {
        job: _,
        handed_out: _,
        worker,
    } = started;
    match worker {
        Worker::Runs(handle) => handle.join(rt),
        Worker::Ran(visited) => visited,
    }
}
