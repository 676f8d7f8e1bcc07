//! Rows that are checked by chunks in threads. One call verifies the short signatures of a chunk, or of a part of it.

ghost use Rattle.std.specs.Prelude.{◌≡◌, flat_map, map, IfOk};
ghost use Rattle.std.specs.Global.{Vec};
ghost use Rattle.auth_entry.specs.Authorised.{capability_refusal};
ghost use Rattle.auth_entry.specs.Batch.{pending_refusal};
ghost use Rattle.auth_entry.specs.Places.{carried};
ghost use Rattle.mc_cap.specs.declared.refusal.RowRefusal.{RowRefusal};
ghost use Rattle.std.specs.declared.option.Option.{Option};

use crate::signatures::Pending;
use crate::{signatures, together};
use cap_codec::RawRow;
use mc_cap::RowRefusal;
use rayon::prelude::*;
use scheme_core::Scheme;
use spelling::NoMemory;
use std::alloc::Global;
use std::thread::Threads;

// The rows of a chunk. A thread is started for some chunks, and none where there are few.
const CHUNK: usize = 256;

/// Why the capability of each row is not valid, where it is not.
pub(crate) fn capability_causes<S: Scheme>(
    rt: &(impl Threads + Sync),
    alloc: Global,
    scheme: &S,
    rows: &[&RawRow],
) -> Result<Vec<Option<RowRefusal>>, NoMemory>
    ensures { IfOk result (λ causes. causes.items ≡ map (capability_refusal S.rules) (carried rows.now)) }
{
    let lists = capability_lists(rt, alloc, scheme, rows)?;
    joined(alloc, rows.len(), &lists)
}

// The same, a list for each chunk.
fn capability_lists<S: Scheme>(
    rt: &(impl Threads + Sync),
    alloc: Global,
    scheme: &S,
    rows: &[&RawRow],
) -> Result<Vec<Vec<Option<RowRefusal>>>, NoMemory>
    ensures { IfOk result (λ lists. flat_map (λ (list : Vec (Option RowRefusal)). list.items) lists.items ≡ map (capability_refusal S.rules) (carried rows.now)) }
{
    let lists: Result<Vec<Vec<Option<RowRefusal>>>, NoMemory> = rows
        .par_chunks(CHUNK)
        .map(
            |chunk: &[&RawRow]| -> Result<Vec<Option<RowRefusal>>, NoMemory>
                ensures { IfOk result (λ causes. causes.items ≡ map (capability_refusal S.rules) (carried chunk.now)) }
            { together::causes_together(alloc, scheme, chunk) },
        )
        .collect(rt, alloc)?;
    lists
}

/// Why each row is refused, where it is.
pub(crate) fn row_causes<S: Scheme>(
    rt: &(impl Threads + Sync),
    alloc: Global,
    scheme: &S,
    pendings: &[Pending],
) -> Result<Vec<Option<RowRefusal>>, NoMemory>
    ensures { IfOk result (λ causes. causes.items ≡ map (pending_refusal S.rules) pendings.now) }
{
    let lists = row_lists(rt, alloc, scheme, pendings)?;
    joined(alloc, pendings.len(), &lists)
}

// The same, a list for each chunk.
fn row_lists<S: Scheme>(
    rt: &(impl Threads + Sync),
    alloc: Global,
    scheme: &S,
    pendings: &[Pending],
) -> Result<Vec<Vec<Option<RowRefusal>>>, NoMemory>
    ensures { IfOk result (λ lists. flat_map (λ (list : Vec (Option RowRefusal)). list.items) lists.items ≡ map (pending_refusal S.rules) pendings.now) }
{
    let lists: Result<Vec<Vec<Option<RowRefusal>>>, NoMemory> = pendings
        .par_chunks(CHUNK)
        .map(
            |chunk: &[Pending]| -> Result<Vec<Option<RowRefusal>>, NoMemory>
                ensures { IfOk result (λ causes. causes.items ≡ map (pending_refusal S.rules) chunk.now) }
            { signatures::causes_together(alloc, scheme, chunk) },
        )
        .collect(rt, alloc)?;
    lists
}

// What stands in the lists, which are so long together, one behind the other.
fn joined(
    alloc: Global,
    count: usize,
    lists: &[Vec<Option<RowRefusal>>],
) -> Result<Vec<Option<RowRefusal>>, NoMemory>
    ensures { IfOk result (λ causes. causes.items ≡ flat_map (λ (list : Vec (Option RowRefusal)). list.items) lists.now) }
{
    let mut causes = Vec::with_capacity(alloc, count)?;
    'lists: for list in lists {
        causes.extend_from_slice(list)?;
    }
    Ok(causes)
}
