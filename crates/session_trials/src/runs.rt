//! A session over a link in memory.

ghost use Rattle.std.specs.Prelude.{◌≡◌, ◌≤◌, None};
ghost use Rattle.scheme_core.specs.Open.{open_rules};
ghost use Rattle.sync_hello.specs.Checked.{hello_refusal};
ghost use Rattle.ns_cell.specs.Passes.{IsPassOf};
ghost use Rattle.sync_core.specs.SyncRules.{IsVersion};
ghost use Rattle.sync_link.specs.Plans.{own_hello};

use crate::fakes::CountingChecker;
use crate::plans::{Side, nonce, plan};
use crate::rows::{Rows, namespace, rows_of};
use auth_entry::{AuthorisedEntry, Checker, authorise};
use cap_codec::RawRow;
use ns_cell::{NsCell, NsState, Pass};
use scheme_core::{OpenScheme, Signer};
use std::alloc::Global;
use std::sync::{Arc, Wait};
use std::thread::Threads;
use sync_link::{SessionEnd, SessionPlan, SessionReport, run_session};
use sync_msg::Role;
use willow_entry::{LogRow, Row};
use willow_outside::MemLink;
use willow_path::NamespaceKey;

type Entry = AuthorisedEntry<OpenScheme>;

// What came of a session.
#[derive(Drop)]
pub(crate) struct Ran {
    pub(crate) answer: Result<SessionReport, SessionEnd>,
    // What was written to the link.
    pub(crate) written: Vec<u8>,
    // The times of the rows that the log has then, in their order.
    pub(crate) times: Vec<u64>,
    // In how many calls the rows that came were judged, which all have one capability.
    pub(crate) calls: u64,
}

// Offers the rows to the cell.
fn fill<W: Wait>(
    rt: &W,
    alloc: Global,
    namespace: &NamespaceKey,
    cell: &NsCell<Entry>,
    pass: &mut Pass<Entry>,
    rows: Vec<RawRow>,
) -> Option<()>
    requires pass { IsPassOf cell.now pass.old }
    requires namespace { namespace.now ≡ cell.now.namespace }
    ensures pass { IsPassOf cell.now pass.new }
{
    for row in rows {
        offer(rt, alloc, namespace, cell, pass, row)?;
    }
    Some(())
}

// Offers a row to the cell, if it is authorised.
fn offer<W: Wait>(
    rt: &W,
    alloc: Global,
    namespace: &NamespaceKey,
    cell: &NsCell<Entry>,
    pass: &mut Pass<Entry>,
    row: RawRow,
) -> Option<()>
    requires pass { IsPassOf cell.now pass.old }
    requires namespace { namespace.now ≡ cell.now.namespace }
    ensures pass { IsPassOf cell.now pass.new }
{
    let entry = authorise(alloc, &OpenScheme, namespace, row).ok()?;
    if entry.entry().namespace != *namespace {
        return None;
    }
    let _told = cell.ingest(rt, pass, entry).ok()?;
    Some(())
}

// The times of the rows of the log, in their order.
fn times<W: Wait>(
    rt: &W,
    alloc: Global,
    cell: &NsCell<Entry>,
    pass: &mut Pass<Entry>,
) -> Option<Vec<u64>>
    requires { IsPassOf cell.now pass.old }
{
    times_of(alloc, &cell.read_log(rt, pass, 0, 100).ok()?)
}

// The times of these rows, in their order.
fn times_of(alloc: Global, rows: &[LogRow<Arc<Entry>>]) -> Option<Vec<u64>> {
    let mut times = Vec::new(alloc);
    for held in rows {
        times.push(held.row.entry().timestamp).ok()?;
    }
    Some(times)
}

// The session, over the link.
fn run_over<R: Wait + Threads + Sync, K: Signer>(
    rt: &R,
    alloc: Global,
    cell: &NsCell<Entry>,
    pass: &mut Pass<Entry>,
    checker: &mut CountingChecker,
    plan: &SessionPlan<OpenScheme>,
    nonce: [u8; 16],
    signer: &mut K,
    link: &mut MemLink,
) -> Option<Ran>
    requires pass { IsPassOf cell.now pass.old }
    requires namespace { ⟦<CountingChecker as Checker<OpenScheme>>⟧.judged_in checker.old ≡ cell.now.namespace }
    requires hello { hello_refusal open_rules cell.now.namespace (own_hello plan.now nonce) ≡ None }
    requires version { IsVersion plan.now.version }
    requires signs { 1 ≤ K.left signer.old }
{
    let answer = run_session(rt, alloc, cell, pass, plan, checker, signer, nonce, link);
    Some(Ran {
        answer,
        written: Vec::from_slice(alloc, link.held()).ok()?,
        times: times(rt, alloc, cell, pass)?,
        calls: checker.handed,
    })
}

// The session of a pass of a cell, to which these rows are offered before.
fn run_in<R: Wait + Threads + Sync, K: Signer>(
    rt: &R,
    alloc: Global,
    cell: &NsCell<Entry>,
    pass: &mut Pass<Entry>,
    namespace: &NamespaceKey,
    which: Rows,
    plan: &SessionPlan<OpenScheme>,
    nonce: [u8; 16],
    signer: &mut K,
    link: &mut MemLink,
) -> Option<Ran>
    requires pass { IsPassOf cell.now pass.old }
    requires namespace { namespace.now ≡ cell.now.namespace }
    requires hello { hello_refusal open_rules namespace.now (own_hello plan.now nonce) ≡ None }
    requires version { IsVersion plan.now.version }
{
    fill(rt, alloc, namespace, cell, pass, rows_of(alloc, which)?)?;
    if signer.left() < 1 {
        return None;
    }
    let mut checker = CountingChecker {
        namespace: *namespace,
        handed: 0,
    };
    run_over(
        rt,
        alloc,
        cell,
        pass,
        &mut checker,
        plan,
        nonce,
        signer,
        link,
    )
}

// The session of a new cell of one pass, with this plan.
fn run_planned<R: Wait + Threads + Sync, K: Signer>(
    rt: &R,
    alloc: Global,
    namespace: &NamespaceKey,
    which: Rows,
    plan: &SessionPlan<OpenScheme>,
    nonce: [u8; 16],
    signer: &mut K,
    link: &mut MemLink,
) -> Option<Ran>
    requires hello { hello_refusal open_rules namespace.now (own_hello plan.now nonce) ≡ None }
    requires version { IsVersion plan.now.version }
{
    let (cell, mut passes) = NsCell::new(alloc, NsState::new(alloc, *namespace), 1).ok()?;
    let mut pass = passes.pop()?;
    run_in(
        rt, alloc, &cell, &mut pass, namespace, which, plan, nonce, signer, link,
    )
}

// The same of this side, with the plan of this role.
fn run_as<R: Wait + Threads + Sync, K: Signer>(
    rt: &R,
    alloc: Global,
    role: Role,
    side: Side,
    signer: &mut K,
    link: &mut MemLink,
) -> Option<Ran> {
    let namespace = namespace()?;
    let nonce = nonce(role);
    let plan = plan(alloc, &namespace, role, side.version, nonce)?;
    run_planned(rt, alloc, &namespace, side.rows, &plan, nonce, signer, link)
}

// A session of this side, in this role, over the link.
pub(crate) fn run_with<R: Wait + Threads + Sync, K: Signer>(
    rt: &R,
    alloc: Global,
    role: Role,
    side: Side,
    mut signer: K,
    mut link: MemLink,
) -> Option<Ran> {
    run_as(rt, alloc, role, side, &mut signer, &mut link)
}
