//! The same rows offered to a cell by threads, to a state alone, or to nobody.

ghost use Rattle.std.specs.Prelude.{◌≡◌, ◌<◌, ◌≤◌, All, IfSome, map, vec_len};
ghost use Rattle.ns_cell.specs.Passes.{IsPassOf};
ghost use Rattle.benches.specs.Jobs.{IsJobOf};
ghost use Rattle.benches.specs.Served.{IsServed};

use crate::rows::{namespace, rows};
use crate::work::{Done, Job, serve_all};
use ns_cell::{NsCell, NsState, PASS_LIMIT, Pass};
use std::alloc::Global;
use std::sync::Wait;
use std::thread::Threads;
use willow_entry::BareRow;
use willow_path::NamespaceKey;

// A job for each pass.
fn jobs_of(
    alloc: Global,
    cell: &NsCell<BareRow>,
    namespace: &NamespaceKey,
    passes: Vec<Pass<BareRow>>,
    count: u32,
) -> Option<Vec<Job<BareRow>>>
    requires passes { All (IsPassOf cell.now) passes.items }
    requires namespace { namespace.now ≡ cell.now.namespace }
    ensures jobs { IfSome result (λ jobs. All (IsJobOf (λ row. row) cell.now) jobs.items) }
    ensures passes { IfSome result (λ jobs. map (λ job. job.pass) jobs.items ≡ passes.items) }
{
    let mut jobs = Vec::new(alloc);
    for pass in passes {
        let author = pass.number();
        let rows = rows(alloc, namespace, author, author.checked_add(1)?, count)?;
        jobs.push(Job { pass, rows }).ok()?;
    }
    Some(jobs)
}

// The passes of jobs that are done.
fn passes_of(
    alloc: Global,
    cell: &NsCell<BareRow>,
    all: Vec<Done<BareRow>>,
) -> Option<Vec<Pass<BareRow>>>
    requires was { All (λ done. IsPassOf cell.now done.was.value) all.items }
    requires served { All (λ done. IsServed done.was.value done.pass) all.items }
    ensures passes { IfSome result (λ passes. All (IsPassOf cell.now) passes.items) }
    ensures count { IfSome result (λ passes. vec_len passes ≡ vec_len all) }
{
    let mut passes = Vec::new(alloc);
    for done in all {
        let Done { was: _, pass } = done;
        passes.push(pass).ok()?;
    }
    Some(passes)
}

/// So many passes of a cell, each on a thread of its own, offer so many rows each. How long the log is then.
pub(crate) fn by_threads<W: Threads + Wait + Sync>(
    rt: &W,
    alloc: Global,
    passes: u32,
    count: u32,
) -> Option<u32> {
    if passes == 0 || passes > PASS_LIMIT {
        return None;
    }
    let namespace = namespace()?;
    let (cell, passes) = NsCell::new(alloc, NsState::new(alloc, namespace), passes).ok()?;
    let jobs = jobs_of(alloc, &cell, &namespace, passes, count)?;
    let all = serve_all(rt, alloc, &cell, jobs).ok()?;
    let passes = passes_of(alloc, &cell, all)?;
    Some(cell.close(rt, passes).front())
}

// Offers the rows, the last first.
fn offer_all(state: &mut NsState<BareRow>, mut rows: Vec<BareRow>)
    requires { All (λ row. row.entry.namespace ≡ state.old.namespace) rows.items }
{
    while let Some(row) = rows.pop() {
        let _answer = state.ingest(0, row);
    }
}

/// The rows of so many authors are offered to a state, in turns. How long the log is then.
pub(crate) fn by_one(alloc: Global, authors: u32, count: u32) -> Option<u32> {
    let namespace = namespace()?;
    let rows = rows(alloc, &namespace, 0, authors, count)?;
    let mut state = NsState::new(alloc, namespace);
    offer_all(&mut state, rows);
    Some(state.front())
}

/// The rows are made, and offered to nobody. How many there are.
pub(crate) fn only_made(alloc: Global, authors: u32, count: u32) -> Option<u32> {
    let rows = rows(alloc, &namespace()?, 0, authors, count)?;
    u32::try_from(rows.len()).ok()
}
