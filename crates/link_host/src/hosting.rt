//! All visits of a host.

ghost use Rattle.std.specs.Prelude.{◌≡◌, ◌≤◌, All, [], length};
ghost use Rattle.link_host.specs.Begun.{IsAccepted};
ghost use Rattle.link_host.specs.Hosted.{IsHosted, Hosts};

use crate::accepting::{Accepted, accept_all};
use crate::{Host, Workers};
use spelling::NoMemory;
use std::alloc::Global;
use std::sync::Wait;
use std::thread::{Threads, scope, scope_env};
use willow_outside::{Door, Fault, Link};

/// What came of the links.
#[derive(Drop)]
pub struct Hosted<J, P> {
    /// What each visit handed on, in the order in which the links came.
    pub partings: Vec<P>,
    /// The jobs for which none came, in order.
    pub unused: Vec<J>,
    /// Why no further link was accepted; none where each job had one.
    pub stopped: Option<Fault>,
}

/// Accepts a link for each job, in order, and lets the host visit each on a thread of its own; where no thread starts, the
/// visit is made in place. An accept waits for no visit. Where an accept fails, no further link is asked for, and the jobs
/// that are left come back. All visits are waited for, and their links are given back in the order in which they came.
///
/// `NoMemory` comes only before the first accept, and leaves the door as it was.
pub fn host_links<R: Wait + Threads + Sync, D: Door, H: Host<D::L>>(
    rt: &R,
    alloc: Global,
    host: &H,
    jobs: Vec<H::Job>,
    door: &mut D,
) -> Result<Hosted<H::Job, H::Parting>, NoMemory>
    requires { All (H.may host.now) jobs.items }
    ensures hosts { Hosts (H.does host.now) jobs.items (D.facts door.old) (D.facts door.new) result }
{
    let workers = Workers::with_room(alloc, host, jobs.len())?;
    Ok(host_reserved(rt, alloc, host, jobs, door, workers))
}

// The same, with all memory taken.
fn host_reserved<R: Wait + Threads + Sync, L: Link + Send, D: Door<L = L>, H: Host<L>>(
    rt: &R,
    alloc: Global,
    host: &H,
    jobs: Vec<H::Job>,
    door: &mut D,
    workers: Workers<L, H>,
) -> Hosted<H::Job, H::Parting>
    requires jobs { All (H.may host.now) jobs.items }
    requires workers { (workers.host ≡ host.now) × (workers.begun ≡ []) × (length jobs.items ≤ workers.room) }
    ensures { IsHosted (H.does host.now) jobs.items (D.facts door.old) (D.facts door.new) result }
{
    // The door comes out of the scope again, since a contract does not see what a scope does to a captured reference.
    let (door, accepted) = scope(
        scope_env(),
        rt,
        move |threads| -> (&mut D, Accepted<L, H>)
            requires { All (H.may host.now) jobs.items × (workers.host ≡ host.now) × (workers.begun ≡ []) × (length jobs.items ≤ workers.room) }
            ensures { (result.0.ghost_name ≡ door.entry.ghost_name) × (result.1.workers.host ≡ host.entry.now) × IsAccepted jobs.items (D.facts door.entry.now) (D.facts result.0.now) result.1.workers.begun result.1.left.items result.1.why }
        {
            let accepted = accept_all(rt, threads, alloc, host, jobs, door, workers);
            (door, accepted)
        },
    );
    let Accepted { workers, left, why } = accepted;
    Hosted {
        partings: workers.finish(rt, door),
        unused: Vec::from(left),
        stopped: why,
    }
}
