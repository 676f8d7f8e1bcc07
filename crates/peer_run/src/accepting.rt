//! The links that come to a server, behind each of which those who watch hear of the rows that came meanwhile.

ghost use Rattle.std.specs.Prelude.{◌≡◌, ◌≤◌, All, [], length, map};
ghost use Rattle.willow_outside.specs.Facts.{DoorFacts};
ghost use Rattle.auth_entry.specs.Rows.{entry_row};
ghost use Rattle.ns_state.specs.Log.{IsLog};
ghost use Rattle.ns_cell.specs.Passes.{IsPassOf};
ghost use Rattle.sub_hub.specs.Seen.{hub_seen};
ghost use Rattle.peer_run.specs.Accepting.{AreReceived, LinksHaveCome, HasOnlyRead};
ghost use Rattle.peer_run.specs.Hall.{MayVisit};
ghost use Rattle.peer_run.specs.Hearing.{HaveHeardSeen};
ghost use Rattle.peer_run.specs.LogFiles.{IsAtIf, file_states};
ghost use Rattle.peer_run.specs.LogPumping.{KeepsUpTo};

use crate::hall::{Guest, Hall, Parting};
use crate::hearing::tell_new;
use crate::log_file::LogFile;
use auth_entry::AuthorisedEntry;
use link_host::{NoLink, Workers};
use lms_core::PeerScheme;
use ns_cell::Pass;
use std::alloc::Global;
use std::collections::VecDeque;
use std::sync::Wait;
use std::thread::{Scope, Threads, scope, scope_env};
use sub_hub::Hub;
use willow_outside::{Disk, Door, Fault, Link};

/// The workers of the links that came, the guests for whom none came, and why; the pass that read the log for those who watch,
/// and how many of these left.
#[derive(Drop)]
struct Accepted<L: Link + Send> {
    workers: Workers<L, Hall>,
    unused: VecDeque<Guest>,
    stopped: Option<Fault>,
    own: Pass<AuthorisedEntry<PeerScheme>>,
    left: u32,
}

/// What came of all visits: what each handed on and its link, in the order in which the links came; the guests for whom none
/// came, and why; the pass that read the log for those who watch, and how many of these left.
#[derive(Drop)]
pub(crate) struct Received<L: Link + Send> {
    pub(crate) partings: Vec<Parting>,
    pub(crate) links: Vec<L>,
    pub(crate) unused: Vec<Guest>,
    pub(crate) stopped: Option<Fault>,
    pub(crate) own: Pass<AuthorisedEntry<PeerScheme>>,
    pub(crate) left: u32,
}

/// Accepts a link for each guest, in order, and lets each be visited on a thread of its own; behind each what came into the log is
/// kept in the log file, where there is one, and those who watch are told of it. Where an accept fails, or memory is wanting to read
/// the log, no further link is asked for. All visits are waited for.
pub(crate) fn receive<R: Wait + Threads + Sync, L: Link + Send, D: Door<L = L>, K: Disk>(
    rt: &R,
    alloc: Global,
    hall: &Hall,
    guests: Vec<Guest>,
    door: &mut D,
    hub: &mut Hub,
    file: &mut Option<LogFile<K>>,
    workers: Workers<L, Hall>,
    own: Pass<AuthorisedEntry<PeerScheme>>,
) -> Received<L>
    requires guests { All (MayVisit hall.now) guests.items }
    requires workers { (workers.host ≡ hall.now) × (workers.begun ≡ []) × (length guests.items ≤ workers.room) }
    requires own { IsPassOf hall.now.cell own × IsLog entry_row hall.now.cell.namespace own.seen × (hub.old.front ≡ length own.seen) }
    requires file { IsAtIf (length own.seen) (file_states K.facts file.old) }
    ensures received { AreReceived hall.now guests.items (D.facts door.old) (D.facts door.new) result.partings.items (map L.facts result.links.items) result.unused.items result.stopped }
    ensures own { HasOnlyRead own result.own }
    ensures heard { HaveHeardSeen hall.now.cell.namespace own.seen result.own.seen result.stopped
        (hub_seen (λ w. told (w.vtable, w.value)) hub.old) (hub_seen (λ w. told (w.vtable, w.value)) hub.new) result.left }
    ensures kept { KeepsUpTo own.seen result.own.seen result.stopped (file_states K.facts file.old) (file_states K.facts file.new) }
{
    // The door, the hub and the file come out of the scope again, since a contract does not see what a scope does to a captured
    // reference.
    let (door, hub, file, accepted) = scope(
        scope_env(),
        rt,
        move |threads| -> (&mut D, &mut Hub, &mut Option<LogFile<K>>, Accepted<L>)
            requires { All (MayVisit hall.now) guests.items × (workers.host ≡ hall.now) × (workers.begun ≡ []) × (length guests.items ≤ workers.room)
                × IsPassOf hall.now.cell own × IsLog entry_row hall.now.cell.namespace own.seen × (hub.now.front ≡ length own.seen)
                × IsAtIf (length own.seen) (file_states K.facts file.now) }
            ensures { (result.0.ghost_name ≡ door.entry.ghost_name) × (result.1.ghost_name ≡ hub.entry.ghost_name) × (result.2.ghost_name ≡ file.entry.ghost_name) × (result.3.workers.host ≡ hall.entry.now)
                × LinksHaveCome guests.items (D.facts door.entry.now) (D.facts result.0.now) result.3.workers.begun result.3.unused.items result.3.stopped
                × HasOnlyRead own result.3.own
                × HaveHeardSeen hall.entry.now.cell.namespace own.seen result.3.own.seen result.3.stopped
                (hub_seen (λ w. told (w.vtable, w.value)) hub.entry.now) (hub_seen (λ w. told (w.vtable, w.value)) result.1.now) result.3.left
                × KeepsUpTo own.seen result.3.own.seen result.3.stopped (file_states K.facts file.entry.now) (file_states K.facts result.2.now) }
        {
            let accepted = accept_all(
                rt, threads, alloc, hall, guests, door, hub, file, workers, own,
            );
            (door, hub, file, accepted)
        },
    );
    hand_back(hub);
    hand_back_door(door);
    hand_back_file(file);
    let Accepted {
        workers,
        unused,
        stopped,
        own,
        left,
    } = accepted;
    let (links, partings) = workers.join(rt);
    Received {
        partings,
        links,
        unused: Vec::from(unused),
        stopped,
        own,
        left,
    }
}

// Leaves the hub as it is: of a reference that comes out of a scope and is used no more, a contract does not see where it ends.
fn hand_back(hub: &mut Hub)
    ensures { hub.new ≡ hub.old }
{
    let _ = hub;
}

// The same of the door.
fn hand_back_door<D: Door>(door: &mut D)
    ensures { door.new ≡ door.old }
{
    let _ = door;
}

// The same of the file.
fn hand_back_file<K: Disk>(file: &mut Option<LogFile<K>>)
    ensures { file.new ≡ file.old }
{
    let _ = file;
}

// Accepts a link for each guest in order, starts its visit and tells those who watch, until an accept fails or memory is wanting.
fn accept_all<'s, E, R: Wait + Threads + Sync, L: Link + Send + 's, D: Door<L = L>, K: Disk>(
    rt: &'s R,
    threads: &Scope<'s, E>,
    alloc: Global,
    hall: &'s Hall,
    guests: Vec<Guest>,
    door: &mut D,
    hub: &mut Hub,
    file: &mut Option<LogFile<K>>,
    mut workers: Workers<L, Hall>,
    mut own: Pass<AuthorisedEntry<PeerScheme>>,
) -> Accepted<L>
    requires guests { All (MayVisit hall.now) guests.items }
    requires workers { (workers.host ≡ hall.now) × (workers.begun ≡ []) × (length guests.items ≤ workers.room) }
    requires own { IsPassOf hall.now.cell own × IsLog entry_row hall.now.cell.namespace own.seen × (hub.old.front ≡ length own.seen) }
    requires file { IsAtIf (length own.seen) (file_states K.facts file.old) }
    ensures host { result.workers.host ≡ hall.now }
    ensures came { LinksHaveCome guests.items (D.facts door.old) (D.facts door.new) result.workers.begun result.unused.items result.stopped }
    ensures own { HasOnlyRead own result.own }
    ensures heard { HaveHeardSeen hall.now.cell.namespace own.seen result.own.seen result.stopped
        (hub_seen (λ w. told (w.vtable, w.value)) hub.old) (hub_seen (λ w. told (w.vtable, w.value)) hub.new) result.left }
    ensures kept { KeepsUpTo own.seen result.own.seen result.stopped (file_states K.facts file.old) (file_states K.facts file.new) }
{
    let mut unused = VecDeque::from(guests);
    let mut left = 0;
    while let Some(guest) = unused.pop_front() {
        if let Err(NoLink { job, fault }) = workers.accept(rt, threads, alloc, hall, guest, door) {
            unused.push_front_reserved(job);
            return Accepted {
                workers,
                unused,
                stopped: Some(fault),
                own,
                left,
            };
        }
        let Ok(more) = tell_new(rt, &hall.cell, &mut own, hub, file) else {
            return Accepted {
                workers,
                unused,
                stopped: Some(Fault::NoMemory),
                own,
                left,
            };
        };
        left += more;
    }
    Accepted {
        workers,
        unused,
        stopped: None,
        own,
        left,
    }
}
