//! Capabilities that are checked, side by side in threads or together on one.

ghost use Rattle.std.specs.Prelude.{◌≡◌, ◌<◌, map, IfOk};
ghost use Rattle.auth_entry.specs.Authorised.{capability_refusal};
ghost use Rattle.auth_entry.specs.Places.{carried};

use crate::chunks;
use crate::refusal::check_capability;
use crate::together::causes_together;
use crate::work::{Sharing, least_checks, work_of};
use cap_codec::RawRow;
use mc_cap::{Capability, RowRefusal};
use rayon::prelude::*;
use scheme_core::{Scheme, Verify};
use spelling::{End, NoMemory};
use std::alloc::Global;
use std::thread::Threads;

/// Why the capability is not valid, where it is not.
pub(crate) fn capability_cause<S: Verify>(
    scheme: &S,
    capability: &Capability,
) -> Result<Option<RowRefusal>, NoMemory>
    ensures { IfOk result (λ cause. cause ≡ capability_refusal S.rules capability.now) }
{
    match check_capability(scheme, capability) {
        Ok(()) => Ok(None),
        Err(End::Refused(refusal)) => Ok(Some(refusal)),
        Err(End::NoMemory) => Err(NoMemory),
    }
}

/// Why the capability of each row is not valid, where it is not.
pub(crate) fn capability_causes<S: Scheme>(
    rt: &(impl Threads + Sync),
    alloc: Global,
    scheme: &S,
    sharing: Sharing,
    rows: &[&RawRow],
) -> Result<Vec<Option<RowRefusal>>, NoMemory>
    ensures { IfOk result (λ causes. causes.items ≡ map (capability_refusal S.rules) (carried rows.now)) }
{
    let work = capabilities_work(rows);
    if sharing.takes_long(work) {
        causes_side_by_side(rt, alloc, scheme, rows, least_checks(rows.len(), work))
    } else if sharing.takes_short() {
        chunks::capability_causes(rt, alloc, scheme, rows)
    } else {
        causes_together(alloc, scheme, rows)
    }
}

// The same, where each thread checks at least so many.
fn causes_side_by_side<S: Scheme>(
    rt: &(impl Threads + Sync),
    alloc: Global,
    scheme: &S,
    rows: &[&RawRow],
    least: usize,
) -> Result<Vec<Option<RowRefusal>>, NoMemory>
    requires { 0 < least }
    ensures { IfOk result (λ causes. causes.items ≡ map (capability_refusal S.rules) (carried rows.now)) }
{
    let causes: Result<Vec<Option<RowRefusal>>, NoMemory> = rows
        .par_iter()
        .with_min_len(least)
        .map(
            |row: &&RawRow| -> Result<Option<RowRefusal>, NoMemory>
                ensures { IfOk result (λ cause. cause ≡ capability_refusal S.rules row.now.now.token.capability) }
            { capability_cause(scheme, &row.token().capability) },
        )
        .collect(rt, alloc)?;
    causes
}

// How much work the signatures of the capabilities are.
fn capabilities_work(rows: &[&RawRow]) -> usize {
    let mut work: usize = 0;
    for row in rows {
        work = work.saturating_add(capability_work(&row.token().capability));
    }
    work
}

/// How much work the signatures of the capability are.
pub(crate) fn capability_work(capability: &Capability) -> usize {
    let mut work = match &capability.initial {
        Some(signature) => work_of(signature.as_slice()),
        None => 0,
    };
    for delegation in capability.chain.as_slice() {
        work = work.saturating_add(work_of(delegation.signature.as_slice()));
    }
    work
}
