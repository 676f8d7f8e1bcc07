//! What checks many rows.

ghost use Rattle.std.specs.Prelude.{◌≡◌, ◌++◌, ◌∷◌, [], ℕ, List, map, None, IfOk, IsTrue, OnOk};
ghost use Rattle.std.specs.List.{AllZip};
ghost use Rattle.std.specs.Vec.Iter.{into_iter_items};
ghost use Rattle.cap_codec.specs.Rows.{RawValue};
ghost use Rattle.auth_entry.specs.Authorised.{capability_refusal, row_refusal, verdict};
ghost use Rattle.auth_entry.specs.Batch.{pending_refusal};
ghost use Rattle.auth_entry.specs.Places.{carried};
ghost use Rattle.auth_entry.specs.Standings.{IsStood};

use crate::authorised::AuthorisedEntry;
use crate::checks::capability_causes;
use crate::signatures::{Pending, row_causes};
use crate::standing::{Stood, all_settled, all_stand};
use crate::unknown::Unknown;
use crate::work::Sharing;
use cap_codec::RawRow;
use mc_cap::RowRefusal;
use scheme_core::{Scheme, Verify};
use std::alloc::Global;
use std::thread::Threads;
use std::vec::IntoIter;
use willow_path::{NamespaceKey, NoMemory};

/// What checks rows in one namespace by the rules of S. A checker tells its namespace and its scheme; it may remember
/// capabilities that it found valid, and may let rows be checked on all processors. None of that changes a verdict.
pub trait Checker<S: Verify>: Drop {
    ghost judged_in: { Self → List ℕ };

    /// The namespace in which rows are judged.
    fn namespace(&self) -> NamespaceKey
        ensures { result ≡ judged_in self.now };

    /// The scheme by which rows are judged.
    fn scheme(&self) -> S;

    /// Whether rows are checked on all processors, where they are enough.
    fn takes_threads(&self) -> bool {
        false
    }

    /// Whether the row's capability is remembered as a valid one.
    fn recalls(&mut self, row: &RawRow) -> bool
        ensures valid { IsTrue result → capability_refusal S.rules row.now.token.capability ≡ None }
        ensures same { judged_in self.new ≡ judged_in self.old }
    {
        false
    }

    /// Hands over the row's capability, which is valid, to be remembered.
    fn remember(&mut self, alloc: Global, row: &RawRow) -> Result<(), NoMemory>
        requires { capability_refusal S.rules row.now.token.capability ≡ None }
        ensures { judged_in self.new ≡ judged_in self.old }
    {
        Ok(())
    }

    /// What `authorise` answers for each row, in order. Of rows that are judged together each capability that is not
    /// remembered is checked once.
    final fn check_all<R: Threads + Sync>(
        &mut self,
        rt: &R,
        alloc: Global,
        rows: Vec<RawRow>,
    ) -> Result<Vec<Result<AuthorisedEntry<S>, RowRefusal>>, NoMemory>
    where
        S: Scheme,
        ensures verdicts { IfOk result (λ verdicts. verdicts.items ≡ map (verdict S.rules (judged_in self.old)) rows.items) }
        ensures same { judged_in self.new ≡ judged_in self.old }
    {
        let namespace = self.namespace();
        let refusals = refusals_of(rt, alloc, self, &rows)?;
        verdicts(alloc, &namespace, rows, &refusals)
    }
}

/// A checker that can be made once its namespace is known.
pub trait NewChecker<S: Verify>: Checker<S> {
    /// What checks rows in the namespace by the scheme, and remembers nothing yet.
    fn begin(alloc: Global, scheme: S, namespace: NamespaceKey) -> Result<Self, NoMemory>
        ensures { IfOk result (λ checker. Self.judged_in checker ≡ namespace) };
}

/// Checks on one thread, and remembers nothing from one call to the next. A contract sees the namespace.
#[derive(Drop)]
pub struct PlainChecker<S: Verify> {
    scheme: S,
    namespace: NamespaceKey,
}

impl<S: Verify> PlainChecker<S> {
    /// What checks rows in the namespace by the scheme.
    pub fn new(scheme: S, namespace: NamespaceKey) -> PlainChecker<S>
        ensures { ⟦<PlainChecker<S> as Checker<S>>⟧.judged_in result ≡ namespace }
    {
        PlainChecker { scheme, namespace }
    }
}

impl<S: Verify> Checker<S> for PlainChecker<S> {
    ghost judged_in = { λ c. c.namespace };

    fn namespace(&self) -> NamespaceKey {
        self.namespace
    }

    fn scheme(&self) -> S {
        self.scheme
    }
}

impl<S: Verify> NewChecker<S> for PlainChecker<S> {
    fn begin(_alloc: Global, scheme: S, namespace: NamespaceKey) -> Result<Self, NoMemory> {
        Ok(PlainChecker::new(scheme, namespace))
    }
}

// Why each of the rows is refused, where it is. They are judged some at a time, so that what is noted of them stays near.
fn refusals_of<S: Scheme, C: Checker<S>>(
    rt: &(impl Threads + Sync),
    alloc: Global,
    checker: &mut C,
    rows: &[RawRow],
) -> Result<Vec<Option<RowRefusal>>, NoMemory>
    ensures refusals { IfOk result (λ refusals. refusals.items ≡ map (row_refusal S.rules (C.judged_in checker.old)) rows.now) }
    ensures same { C.judged_in checker.new ≡ C.judged_in checker.old }
{
    let sharing = Sharing::of(checker.takes_threads(), rows.len());
    let mut refusals = Vec::with_capacity(alloc, rows.len())?;
    put_all_refusals(rt, alloc, checker, sharing, rows, &mut refusals)?;
    Ok(refusals)
}

// Appends why each of the rows is refused, where it is, segment by segment.
fn put_all_refusals<S: Scheme, C: Checker<S>>(
    rt: &(impl Threads + Sync),
    alloc: Global,
    checker: &mut C,
    sharing: Sharing,
    rows: &[RawRow],
    refusals: &mut Vec<Option<RowRefusal>>,
) -> Result<(), NoMemory>
    ensures refusals { OnOk result (refusals.new.items ≡ refusals.old.items ++ map (row_refusal S.rules (C.judged_in checker.old)) rows.now) }
    ensures same { C.judged_in checker.new ≡ C.judged_in checker.old }
{
    let mut left = rows;
    'segments: while !left.is_empty() {
        let (segment, behind) = left.split_at(left.len().min(sharing.segment()));
        put_refusals(rt, alloc, checker, sharing, segment, refusals)?;
        left = behind;
    }
    Ok(())
}

// Appends why each of these rows is refused, where it is. They are judged together.
fn put_refusals<S: Scheme, C: Checker<S>>(
    rt: &(impl Threads + Sync),
    alloc: Global,
    checker: &mut C,
    sharing: Sharing,
    rows: &[RawRow],
    refusals: &mut Vec<Option<RowRefusal>>,
) -> Result<(), NoMemory>
    ensures refusals { OnOk result (refusals.new.items ≡ refusals.old.items ++ map (row_refusal S.rules (C.judged_in checker.old)) rows.now) }
    ensures same { C.judged_in checker.new ≡ C.judged_in checker.old }
{
    let more = refusals_in(rt, alloc, checker, sharing, rows)?;
    refusals.extend_from_slice(&more)?;
    Ok(())
}

// Why each of these rows is refused, where it is. Each of their capabilities that is not remembered is checked once.
fn refusals_in<S: Scheme, C: Checker<S>>(
    rt: &(impl Threads + Sync),
    alloc: Global,
    checker: &mut C,
    sharing: Sharing,
    rows: &[RawRow],
) -> Result<Vec<Option<RowRefusal>>, NoMemory>
    ensures refusals { IfOk result (λ refusals. refusals.items ≡ map (row_refusal S.rules (C.judged_in checker.old)) rows.now) }
    ensures same { C.judged_in checker.new ≡ C.judged_in checker.old }
{
    let scheme = checker.scheme();
    let pending = pending_in(rt, alloc, checker, &scheme, sharing, rows)?;
    row_causes(rt, alloc, &scheme, sharing, &pending)
}

// What is known of each of these rows before its signature is checked.
fn pending_in<'r, S: Scheme, C: Checker<S>>(
    rt: &(impl Threads + Sync),
    alloc: Global,
    checker: &mut C,
    scheme: &S,
    sharing: Sharing,
    rows: &'r [RawRow],
) -> Result<Vec<Pending<'r>>, NoMemory>
    ensures refusals { IfOk result (λ pending. map (pending_refusal S.rules) pending.items ≡ map (row_refusal S.rules (C.judged_in checker.old)) rows.now) }
    ensures same { C.judged_in checker.new ≡ C.judged_in checker.old }
{
    let mut unknown = Unknown::new(alloc);
    pending_beside(rt, alloc, checker, scheme, sharing, &mut unknown, rows)
}

// The same, where it is noted beside them which capabilities are to be checked.
fn pending_beside<'r, S: Scheme, C: Checker<S>>(
    rt: &(impl Threads + Sync),
    alloc: Global,
    checker: &mut C,
    scheme: &S,
    sharing: Sharing,
    unknown: &mut Unknown<'r>,
    rows: &'r [RawRow],
) -> Result<Vec<Pending<'r>>, NoMemory>
    ensures refusals { IfOk result (λ pending. map (pending_refusal S.rules) pending.items ≡ map (row_refusal S.rules (C.judged_in checker.old)) rows.now) }
    ensures same { C.judged_in checker.new ≡ C.judged_in checker.old }
{
    let stood = all_stand(alloc, checker, unknown, rows)?;
    pending_of(rt, alloc, checker, scheme, sharing, unknown.rows(), &stood)
}

// The same of rows that stand so, where the capabilities that the unknown rows carry are to be checked.
fn pending_of<'r, S: Scheme, C: Checker<S>>(
    rt: &(impl Threads + Sync),
    alloc: Global,
    checker: &mut C,
    scheme: &S,
    sharing: Sharing,
    unknown: &[&RawRow],
    stood: &[Stood<'r>],
) -> Result<Vec<Pending<'r>>, NoMemory>
    requires stood { (n : List ℕ) × (rows : List RawValue) × AllZip (IsStood S.rules n (carried unknown.now)) rows stood.now }
    ensures refusals { (n : List ℕ) (rows : List RawValue) → AllZip (IsStood S.rules n (carried unknown.now)) rows stood.now
        → IfOk result (λ pending. map (pending_refusal S.rules) pending.items ≡ map (row_refusal S.rules n) rows) }
    ensures same { C.judged_in checker.new ≡ C.judged_in checker.old }
{
    let causes = causes_remembered(rt, alloc, checker, scheme, sharing, unknown)?;
    all_settled(alloc, &causes, stood)
}

// Why the capability of each row is not valid, where it is not. The checker is handed those that are.
fn causes_remembered<S: Scheme, C: Checker<S>>(
    rt: &(impl Threads + Sync),
    alloc: Global,
    checker: &mut C,
    scheme: &S,
    sharing: Sharing,
    rows: &[&RawRow],
) -> Result<Vec<Option<RowRefusal>>, NoMemory>
    ensures causes { IfOk result (λ causes. causes.items ≡ map (capability_refusal S.rules) (carried rows.now)) }
    ensures same { C.judged_in checker.new ≡ C.judged_in checker.old }
{
    let causes = capability_causes(rt, alloc, scheme, sharing, rows)?;
    remember_valid(alloc, checker, rows, &causes)?;
    Ok(causes)
}

// The checker is handed the capabilities of those rows for which there is no cause to refuse them.
fn remember_valid<S: Verify, C: Checker<S>>(
    alloc: Global,
    checker: &mut C,
    rows: &[&RawRow],
    causes: &[Option<RowRefusal>],
) -> Result<(), NoMemory>
    requires { causes.now ≡ map (capability_refusal S.rules) (carried rows.now) }
    ensures { C.judged_in checker.new ≡ C.judged_in checker.old }
{
    for (row, cause) in rows.iter().zip(causes) {
        remember_if_valid(alloc, checker, *row, *cause)?;
    }
    Ok(())
}

// The checker is handed the row's capability, where there is no cause to refuse it.
fn remember_if_valid<S: Verify, C: Checker<S>>(
    alloc: Global,
    checker: &mut C,
    row: &RawRow,
    cause: Option<RowRefusal>,
) -> Result<(), NoMemory>
    requires { cause ≡ capability_refusal S.rules row.now.token.capability }
    ensures { C.judged_in checker.new ≡ C.judged_in checker.old }
{
    match cause {
        None => checker.remember(alloc, row),
        Some(_) => Ok(()),
    }
}

// The rows that are not refused, and why the others are, in order.
fn verdicts<S: Verify>(
    alloc: Global,
    namespace: &NamespaceKey,
    rows: Vec<RawRow>,
    refusals: &[Option<RowRefusal>],
) -> Result<Vec<Result<AuthorisedEntry<S>, RowRefusal>>, NoMemory>
    requires { refusals.now ≡ map (row_refusal S.rules namespace.now) rows.items }
    ensures { IfOk result (λ verdicts. verdicts.items ≡ map (verdict S.rules namespace.now) rows.items) }
{
    let mut verdicts = Vec::with_capacity(alloc, rows.len())?;
    put_verdicts(namespace, rows.into_iter(), refusals, &mut verdicts)?;
    Ok(verdicts)
}

// Appends the rows that are not refused, and why the others are, in order.
fn put_verdicts<S: Verify>(
    namespace: &NamespaceKey,
    rows: IntoIter<RawRow>,
    refusals: &[Option<RowRefusal>],
    verdicts: &mut Vec<Result<AuthorisedEntry<S>, RowRefusal>>,
) -> Result<(), NoMemory>
    requires refusals { refusals.now ≡ map (row_refusal S.rules namespace.now) (into_iter_items rows) }
    ensures verdicts { OnOk result (verdicts.new.items ≡ verdicts.old.items ++ map (verdict S.rules namespace.now) (into_iter_items rows)) }
{
    for (row, refusal) in rows.zip(refusals) {
        put_verdict(namespace, row, refusal, verdicts)?;
    }
    Ok(())
}

// Appends the row, or why it is refused.
fn put_verdict<S: Verify>(
    namespace: &NamespaceKey,
    row: RawRow,
    refusal: &Option<RowRefusal>,
    verdicts: &mut Vec<Result<AuthorisedEntry<S>, RowRefusal>>,
) -> Result<(), NoMemory>
    requires refusal { refusal.now ≡ row_refusal S.rules namespace.now row }
    ensures verdict { OnOk result (verdicts.new.items ≡ verdicts.old.items ++ verdict S.rules namespace.now row ∷ []) }
{
    verdicts.push(verdict_by(namespace, row, *refusal))?;
    Ok(())
}

// The row, or why it is refused.
fn verdict_by<S: Verify>(
    namespace: &NamespaceKey,
    row: RawRow,
    refusal: Option<RowRefusal>,
) -> Result<AuthorisedEntry<S>, RowRefusal>
    requires { refusal ≡ row_refusal S.rules namespace.now row }
    ensures { result ≡ verdict S.rules namespace.now row }
{
    match refusal {
        None => Ok(AuthorisedEntry::new(*namespace, row)),
        Some(refusal) => Err(refusal),
    }
}
