//! Workers that share a cell, each on a thread with a pass of its own.

ghost use Rattle.std.specs.Prelude.{◌≡◌, ◌≤◌, ◌<◌, All, IfOk, [], map, vec_len, vec_capacity};
ghost use Rattle.std.specs.Thread.{IsSync};
ghost use Rattle.ns_cell.specs.Passes.{IsPassOf};
ghost use Rattle.benches.specs.Jobs.{IsJobOf};
ghost use Rattle.benches.specs.Served.{IsServed, IsDone, Keeps};

use ns_cell::{NsCell, Pass};
use std::alloc::Global;
use std::snapshot::Snapshot;
use std::sync::Wait;
use std::thread::{Promise, PromisedHandle, Scope, SpawnError, Threads, scope, scope_env};
use willow_entry::{Row, SharedRow};
use willow_path::NoMemory;

/// A pass, and the rows that it is to offer, the last first.
#[derive(Drop)]
pub(crate) struct Job<R: Row> {
    pub(crate) pass: Pass<R>,
    pub(crate) rows: Vec<R>,
}

/// What a worker promises of the pass that it takes and hands back.
#[derive(Drop)]
pub(crate) struct Serves<R: Row> {
    pub(crate) pass: Snapshot<Pass<R>>,
}

impl<R: Row> Promise<Pass<R>> for Serves<R> {
    ghost kept_by = { λ promise pass. IsServed promise.pass.value pass };
}

/// A worker that runs on a thread, or the pass of one that ran in place, since no thread started.
#[derive(Drop)]
pub(crate) enum Worker<R: Row> {
    Runs(PromisedHandle<Pass<R>, Serves<R>>),
    Ran(Pass<R>),
}

/// A worker, with the pass as it was.
#[derive(Drop)]
pub(crate) struct Started<R: Row> {
    pub(crate) was: Snapshot<Pass<R>>,
    pub(crate) worker: Worker<R>,
}

/// A pass as it was before its job, and as it is.
#[derive(Drop)]
pub(crate) struct Done<R: Row> {
    pub(crate) was: Snapshot<Pass<R>>,
    pub(crate) pass: Pass<R>,
}

// Offers the rows, and hands the pass back.
fn serve<R: Row, W: Wait>(rt: &W, cell: &NsCell<R>, job: Job<R>) -> Pass<R>
    requires { IsJobOf R.value cell.now job }
    ensures { IsServed job.pass result }
{
    let Job { mut pass, mut rows } = job;
    while let Some(row) = rows.pop() {
        let _answer = cell.ingest(rt, &mut pass, row);
    }
    pass
}

// Starts a worker on a thread of the scope, or lets it run in place where no thread starts.
fn start<'s, E, R: SharedRow + 's, W: Threads + Wait + Sync>(
    rt: &'s W,
    threads: &Scope<'s, E>,
    cell: &'s NsCell<R>,
    job: Job<R>,
) -> Started<R>
    requires { IsJobOf R.value cell.now job }
    ensures was { result.was.value ≡ job.pass }
    ensures keeps { Keeps result }
{
    let was = Snapshot::of(&job.pass);
    let promise = Serves {
        pass: Snapshot::of(&job.pass),
    };
    match threads.spawn_with(
        promise,
        move || -> Pass<R>
            requires { IsJobOf R.value cell.now job }
            ensures { IsServed job.pass result }
        { serve(rt, cell, job) },
    ) {
        Ok(handle) => Started {
            was,
            worker: Worker::Runs(handle),
        },
        Err(SpawnError { value: run }) => Started {
            was,
            worker: Worker::Ran(run()),
        },
    }
}

// Starts a worker for each job.
fn start_all<'s, E, R: SharedRow + 's, W: Threads + Wait + Sync>(
    rt: &'s W,
    threads: &Scope<'s, E>,
    cell: &'s NsCell<R>,
    jobs: Vec<Job<R>>,
    mut started: Vec<Started<R>>,
) -> Vec<Started<R>>
    requires jobs { All (IsJobOf R.value cell.now) jobs.items }
    requires room { (started.items ≡ []) × (vec_len jobs ≤ vec_capacity started) }
    ensures was { map (λ s. s.was.value) result.items ≡ map (λ job. job.pass) jobs.items }
    ensures keeps { All Keeps result.items }
{
    for job in jobs {
        started.push_reserved(start(rt, threads, cell, job));
    }
    started
}

// Waits for the worker, where it runs.
fn finish<R: Row, W: Threads>(rt: &W, started: Started<R>) -> Done<R>
    requires { Keeps started }
    ensures { IsDone started.was.value result }
{
    let Started { was, worker } = started;
    let pass = match worker {
        Worker::Runs(handle) => handle.join(rt),
        Worker::Ran(pass) => pass,
    };
    Done { was, pass }
}

// Waits for all of them.
fn finish_all<R: Row, W: Threads>(
    rt: &W,
    started: Vec<Started<R>>,
    mut all: Vec<Done<R>>,
) -> Vec<Done<R>>
    requires keeps { All Keeps started.items }
    requires room { (all.items ≡ []) × (vec_len started ≤ vec_capacity all) }
    ensures was { map (λ done. done.was.value) result.items ≡ map (λ s. s.was.value) started.items }
    ensures served { All (λ done. IsServed done.was.value done.pass) result.items }
{
    for worker in started {
        all.push_reserved(finish(rt, worker));
    }
    all
}

/// Does all jobs at the same time, each on a thread of its own, and hands them on in their order. A job for which no
/// thread starts is done in place. Want of memory may come only before the first starts.
pub(crate) fn serve_all<R: SharedRow, W: Threads + Wait + Sync>(
    rt: &W,
    alloc: Global,
    cell: &NsCell<R>,
    jobs: Vec<Job<R>>,
) -> Result<Vec<Done<R>>, NoMemory>
    requires { All (IsJobOf R.value cell.now) jobs.items }
    ensures was { IfOk result (λ all. map (λ done. done.was.value) all.items ≡ map (λ job. job.pass) jobs.items) }
    ensures served { IfOk result (λ all. All (λ done. IsServed done.was.value done.pass) all.items) }
{
    let started = Vec::with_capacity(alloc, jobs.len())?;
    let all = Vec::with_capacity(alloc, jobs.len())?;
    Ok(serve_reserved(rt, cell, jobs, started, all))
}

// The same, with all memory taken.
fn serve_reserved<R: SharedRow, W: Threads + Wait + Sync>(
    rt: &W,
    cell: &NsCell<R>,
    jobs: Vec<Job<R>>,
    started: Vec<Started<R>>,
    all: Vec<Done<R>>,
) -> Vec<Done<R>>
    requires jobs { All (IsJobOf R.value cell.now) jobs.items }
    requires started { (started.items ≡ []) × (vec_len jobs ≤ vec_capacity started) }
    requires all { (all.items ≡ []) × (vec_len jobs ≤ vec_capacity all) }
    ensures was { map (λ done. done.was.value) result.items ≡ map (λ job. job.pass) jobs.items }
    ensures served { All (λ done. IsServed done.was.value done.pass) result.items }
{
    scope(
        scope_env(),
        rt,
        move |threads| -> Vec<Done<R>>
            requires { All (IsJobOf R.value cell.now) jobs.items × (started.items ≡ []) × (vec_len jobs ≤ vec_capacity started) × (all.items ≡ []) × (vec_len jobs ≤ vec_capacity all) }
            ensures { (map (λ done. done.was.value) result.items ≡ map (λ job. job.pass) jobs.items) × All (λ done. IsServed done.was.value done.pass) result.items }
        { finish_all(rt, start_all(rt, threads, cell, jobs, started), all) },
    )
}
