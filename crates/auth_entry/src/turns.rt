//! Signatures that are checked in threads, row by row: whichever thread is free takes the next.

ghost use Rattle.std.specs.Prelude.{◌≡◌, ◌+◌, ◌<◌, List, All, Some, length, map, take, slice_get, IfOk, IfSome, OnOk};
ghost use Rattle.std.specs.Global.{Vec};
ghost use Rattle.scheme_core.specs.Rules.{Rules};
ghost use Rattle.auth_entry.specs.Batch.{IsTold, pending_refusal};
ghost use Rattle.auth_entry.specs.declared.signatures.Pending.{Pending};
ghost use Rattle.auth_entry.specs.declared.turns.Told.{Told};

use crate::signatures::{Pending, cause_of};
use mc_cap::RowRefusal;
use rayon::current_num_threads;
use rayon::prelude::*;
use scheme_core::Scheme;
use spelling::NoMemory;
use std::alloc::Global;
use std::sync::atomic::{AtomicUsize, Ordering};
use std::thread::Threads;

// Why the row at a place is refused, where it is.
#[derive(Clone, Copy)]
pub(crate) struct Told {
    at: usize,
    cause: Option<RowRefusal>,
}

/// Why each row is refused, where it is. A thread for each processor judges rows, the next one whenever it is done with one:
/// so they end together, also where one begins late.
pub(crate) fn causes_by_turns<S: Scheme>(
    rt: &(impl Threads + Sync),
    alloc: Global,
    scheme: &S,
    pendings: &[Pending],
) -> Result<Vec<Option<RowRefusal>>, NoMemory>
    ensures { IfOk result (λ causes. causes.items ≡ map (pending_refusal S.rules) pendings.now) }
{
    let told = told_by_all(rt, alloc, scheme, pendings)?;
    let placed = placed(alloc, pendings.len(), &told)?;
    in_order(alloc, scheme, pendings, &placed)
}

// What each thread tells of the rows that it took.
fn told_by_all<S: Scheme>(
    rt: &(impl Threads + Sync),
    alloc: Global,
    scheme: &S,
    pendings: &[Pending],
) -> Result<Vec<Vec<Told>>, NoMemory>
    ensures { IfOk result (λ lists. All (λ (list : Vec Told). All (IsTold S.rules pendings.now) list.items) lists.items) }
{
    let next = AtomicUsize::new(0);
    let workers = current_num_threads(rt).min(pendings.len());
    let told: Result<Vec<Vec<Told>>, NoMemory> = (0..workers)
        .into_par_iter()
        .with_min_len(1)
        .map(
            |_worker: usize| -> Result<Vec<Told>, NoMemory>
                ensures { IfOk result (λ told. All (IsTold S.rules pendings.entry.now) told.items) }
            { take_turns(alloc, scheme, pendings, &next) },
        )
        .collect(rt, alloc)?;
    told
}

// Judges the next row again and again, until none is left.
fn take_turns<S: Scheme>(
    alloc: Global,
    scheme: &S,
    pendings: &[Pending],
    next: &AtomicUsize,
) -> Result<Vec<Told>, NoMemory>
    ensures { IfOk result (λ told. All (IsTold S.rules pendings.now) told.items) }
{
    let mut told = Vec::new(alloc);
    'turns: for _turn in 0..pendings.len() {
        let at = next.fetch_add(1, Ordering::SeqCst);
        match told_at(alloc, scheme, pendings, at)? {
            Some(row) => told.push(row)?,
            None => return Ok(told),
        }
    }
    Ok(told)
}

// What is told of the row at a place, if there is one.
fn told_at<S: Scheme>(
    alloc: Global,
    scheme: &S,
    pendings: &[Pending],
    at: usize,
) -> Result<Option<Told>, NoMemory>
    ensures { IfOk result (λ told. IfSome told (IsTold S.rules pendings.now)) }
{
    match pendings.get(at) {
        Some(pending) => {
            let cause = cause_of(alloc, scheme, pending)?;
            Ok(Some(Told { at, cause }))
        }
        None => Ok(None),
    }
}

// What is told, each at its place among so many.
fn placed(alloc: Global, count: usize, lists: &[Vec<Told>]) -> Result<Vec<Option<Told>>, NoMemory>
    ensures { (rules : Rules) (pendings : List Pending) → All (λ (list : Vec Told). All (IsTold rules pendings) list.items) lists.now
        → IfOk result (λ placed. All (λ told. IfSome told (IsTold rules pendings)) placed.items) }
{
    let mut placed: Vec<Option<Told>> = vec![in alloc; None; count]?;
    'lists: for list in lists {
        'told: for told in list {
            if told.at < placed.len() {
                placed[told.at] = Some(*told);
            }
        }
    }
    Ok(placed)
}

// Why each row is refused, in order. One of which nothing is told is judged here.
fn in_order<S: Scheme>(
    alloc: Global,
    scheme: &S,
    pendings: &[Pending],
    placed: &[Option<Told>],
) -> Result<Vec<Option<RowRefusal>>, NoMemory>
    requires { All (λ told. IfSome told (IsTold S.rules pendings.now)) placed.now }
    ensures { IfOk result (λ causes. causes.items ≡ map (pending_refusal S.rules) pendings.now) }
{
    let mut causes = Vec::with_capacity(alloc, pendings.len())?;
    'rows: for at in 0..pendings.len() {
        put_cause(alloc, scheme, pendings, placed, at, &mut causes)?;
    }
    Ok(causes)
}

// Appends why the row at a place is refused, where those before it are judged.
fn put_cause<S: Scheme>(
    alloc: Global,
    scheme: &S,
    pendings: &[Pending],
    placed: &[Option<Told>],
    at: usize,
    causes: &mut Vec<Option<RowRefusal>>,
) -> Result<(), NoMemory>
    requires place { at < length pendings.now }
    requires placed { All (λ told. IfSome told (IsTold S.rules pendings.now)) placed.now }
    requires before { causes.old.items ≡ map (pending_refusal S.rules) (take at pendings.now) }
    ensures judged { OnOk result (causes.new.items ≡ map (pending_refusal S.rules) (take (at + 1) pendings.now)) }
{
    let cause = cause_at(alloc, scheme, pendings, placed, at)?;
    causes.push(cause)?;
    Ok(())
}

// Why the row at a place is refused, where it is: as it is told there, or else as it is judged now.
fn cause_at<S: Scheme>(
    alloc: Global,
    scheme: &S,
    pendings: &[Pending],
    placed: &[Option<Told>],
    at: usize,
) -> Result<Option<RowRefusal>, NoMemory>
    requires place { at < length pendings.now }
    requires placed { All (λ told. IfSome told (IsTold S.rules pendings.now)) placed.now }
    ensures { IfOk result (λ cause. (p : Pending) → slice_get pendings.now at ≡ Some p → cause ≡ pending_refusal S.rules p) }
{
    match placed.get(at) {
        Some(Some(told)) if told.at == at => Ok(told.cause),
        _ => cause_of(alloc, scheme, &pendings[at]),
    }
}
