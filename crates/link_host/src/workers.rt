//! Workers that run, and those to come.

ghost use Rattle.std.specs.Prelude.{◌≡◌, ◌+◌, ◌<◌, ◌≤◌, [], All, IfOk, length, map, vec_len, vec_capacity};
ghost use Rattle.willow_outside.specs.Counts.{one_more};
ghost use Rattle.willow_outside.specs.Links.{HandsOutLink};
ghost use Rattle.link_host.specs.Begun.{AreOver, AreVisited, Begins, CountsRefusal, beginning};
ghost use Rattle.link_host.specs.Keeping.{Keeps, begun_of};

use crate::giving::give_back_all;
use crate::worker::{Errand, Started, Visited, finish, start};
use crate::{Host, NoLink};
use spelling::NoMemory;
use std::alloc::Global;
use std::marker::Model;
use std::snapshot::Snapshot;
use std::sync::Wait;
use std::thread::{Scope, Threads};
use willow_outside::{Door, Link};

/// The workers that visit the links that came, in the order in which they came, and room for so many more. All are of one
/// host.
#[derive(Drop)]
pub struct Workers<L: Link + Send, H: Host<L>> {
    host: Snapshot<H>,
    started: Vec<Started<L, H>>,
    links: Vec<L>,
    partings: Vec<H::Parting>,
    room: usize,
}

impl<L: Link + Send, H: Host<L>> Model for Workers<L, H> {
    ghost use Rattle.std.specs.Prelude.{map};
    ghost use Rattle.link_host.specs.Begun.{WorkersValue};
    ghost use Rattle.link_host.specs.Keeping.{AllKeep, begun_of};

    ghost Value = { WorkersValue H H.Job };

    ghost view = { λ s. record { host = s.host.value; begun = map (begun_of L.facts) s.started.items; room = s.room } };

    ghost invariant = { λ s. AllKeep L.facts H.does s.host.value s.started s.links s.partings s.room };
}

impl<L: Link + Send, H: Host<L>> Workers<L, H> {
    /// No worker yet, and room for `room` of them. No later call takes memory for what it hands on.
    pub fn with_room(alloc: Global, host: &H, room: usize) -> Result<Workers<L, H>, NoMemory>
        ensures { IfOk result (λ workers. workers ≡ record { host = host.now; begun = []; room = room }) }
    {
        Ok(Workers {
            host: Snapshot::of(host),
            started: Vec::with_capacity(alloc, room)?,
            links: Vec::with_capacity(alloc, room)?,
            partings: Vec::with_capacity(alloc, room)?,
            room,
        })
    }

    /// Accepts one link, and lets the host visit it for the job on a thread of the scope; where no thread starts, the visit
    /// is made in place. Where the accept fails, the job comes back with the fault, and the workers are as they were.
    pub fn accept<'s, E, R: Wait + Threads + Sync, D: Door<L = L>>(
        &mut self,
        rt: &'s R,
        threads: &Scope<'s, E>,
        alloc: Global,
        host: &'s H,
        job: H::Job,
        door: &mut D,
    ) -> Result<(), NoLink<H::Job>>
    where
        L: 's,
        requires host { host.now ≡ self.old.host }
        requires may { H.may host.now job }
        requires room { 0 < self.old.room }
        ensures begins { Begins job self.old self.new result }
        ensures accepts { (D.facts door.new).accepts ≡ one_more (D.facts door.old).accepts }
        ensures out { HandsOutLink (D.facts door.old).out (D.facts door.new).out result }
        ensures cause { CountsRefusal (D.facts door.old).faults (D.facts door.new).faults result }
        ensures asked { (D.facts door.new).asked ≡ (D.facts door.old).asked }
        ensures back { (D.facts door.new).back ≡ (D.facts door.old).back }
    {
        match door.accept() {
            Ok(link) => {
                let worker = start(rt, threads, alloc, host, Errand { job, link });
                self.started.push_reserved(worker);
                self.room -= 1;
                Ok(())
            }
            Err(fault) => Err(NoLink { job, fault }),
        }
    }

    /// Waits for all workers, in order, and hands out the link of each visit, and what each visit handed on.
    pub fn join<R: Threads>(self, rt: &R) -> (Vec<L>, Vec<H::Parting>)
        ensures { AreOver (H.does self.host) self.begun (map L.facts result.0.items) result.1.items }
    {
        let Workers {
            host,
            started,
            links,
            partings,
            room: _,
        } = self;
        join_all(rt, &host, started, links, partings)
    }

    /// Waits for all workers, gives their links back to the door in order, and tells what the visits handed on.
    pub fn finish<R: Threads, D: Door<L = L>>(self, rt: &R, door: &mut D) -> Vec<H::Parting>
        requires { length self.begun ≤ (D.facts door.old).out }
        ensures { AreVisited (H.does self.host) self.begun result.items (D.facts door.old) (D.facts door.new) }
    {
        let (links, partings) = self.join(rt);
        give_back_all(door, links);
        partings
    }
}

// Waits for all workers, in order, with lists that have room for all links and for what all visits hand on.
fn join_all<R: Threads, L: Link + Send, H: Host<L>>(
    rt: &R,
    host: &Snapshot<H>,
    started: Vec<Started<L, H>>,
    mut links: Vec<L>,
    mut partings: Vec<H::Parting>,
) -> (Vec<L>, Vec<H::Parting>)
    requires keeps { All (Keeps L.facts H.does host.now.value) started.items }
    requires links { (links.items ≡ []) × (vec_len started ≤ vec_capacity links) }
    requires partings { (partings.items ≡ []) × (vec_len started ≤ vec_capacity partings) }
    ensures { AreOver (H.does host.now.value) (map (begun_of L.facts) started.items) (map L.facts result.0.items) result.1.items }
{
    for worker in started {
        let Visited { link, parting } = finish(rt, host, worker);
        links.push_reserved(link);
        partings.push_reserved(parting);
    }
    (links, partings)
}
