//! What is done with a hub.

ghost use Rattle.std.specs.Prelude.{◌≡◌, ◌+◌, ◌-◌, ◌^◌, ◌<◌, ◌≤◌, IfOk, IfErr, IfSome, length};
ghost use Rattle.std.specs.Option.{option_map};
ghost use Rattle.sub_hub.specs.Heard.{slice_rows};
ghost use Rattle.sub_hub.specs.Hubs.{IsWatcherAdded, Removes, IsPumped, new_hub, begun_at, count_left};
ghost use Rattle.sub_hub.specs.Seen.{hub_seen, IsWatcherIn};

use crate::hub::Hub;
use crate::key::HubKey;
use crate::member::{Member, tell_slot};
use crate::watcher::Watcher;
use slab::Slab;
use std::alloc::Global;
use willow_area::Area;
use willow_entry::{LogRow, Row};
use willow_path::NoMemory;

impl Hub {
    /// A hub without watchers, of front 0 and the full area.
    pub fn new(alloc: Global) -> Hub
        ensures { hub_seen (λ w. told w) result ≡ new_hub }
    {
        Hub {
            members: Slab::new(alloc),
            front: 0,
            area: Area::full(alloc),
            added: 0,
        }
    }

    /// Adds a watcher of an area, and answers its key. It hears of rows that are pumped from now on. For want of memory the
    /// hub is as it was, and the watcher is handed back. At most 4,294,967,295 adds of a hub answer Ok.
    pub fn add(
        &mut self,
        area: Area,
        watcher: Box<dyn Watcher>,
    ) -> Result<HubKey, (NoMemory, Box<dyn Watcher>)>
        requires { self.old.added < 2 ^ 32 - 1 }
        ensures added { IfOk result (λ key. IsWatcherAdded (hub_seen (λ w. told w) self.old) (hub_seen (λ w. told w) self.new) key area (told watcher)) }
        ensures same { IfErr result (λ e. hub_seen (λ w. told w) self.new ≡ hub_seen (λ w. told w) self.old) }
        ensures handed_back { IfErr result (λ e. e.1 ≡ watcher) }
    {
        let number = self.added;
        let member = Member {
            number,
            area,
            has_left: false,
            watcher,
        };
        match self.members.insert(member) {
            Ok(slot) => {
                self.added += 1;
                Ok(HubKey { slot, number })
            }
            Err(failed) => {
                let Member { watcher, .. } = failed.value;
                Err((NoMemory, watcher))
            }
        }
    }

    /// How many adds answered Ok.
    pub fn added(&self) -> u32
        ensures { result ≡ self.now.added }
    {
        self.added
    }

    /// Hands back the watcher that was added under the key, also one that left. None exactly where the hub has none under it:
    /// it was removed before. Takes no memory.
    pub fn remove(&mut self, key: HubKey) -> Option<Box<dyn Watcher>>
        ensures removed { Removes (hub_seen (λ w. told w) self.old) (hub_seen (λ w. told w) self.new) key (option_map (λ w. told w) result) }
        // of watchers that tell nothing too: it is the box that stood in the slot
        ensures itself { IfSome result (IsWatcherIn self.old key.slot) }
    {
        match self.members.get(key.slot) {
            Some(member) if member.number == key.number => (),
            _ => return None,
        }
        match self.members.try_remove(key.slot) {
            Some(Member { watcher, .. }) => Some(watcher),
            None => None,
        }
    }

    /// Sets the front, the position in the log of the first row that is pumped next, and the area, of which alone the watchers
    /// are told. Takes no memory.
    pub fn begin(&mut self, front: u32, area: Area)
        ensures { hub_seen (λ w. told w) self.new ≡ begun_at (hub_seen (λ w. told w) self.old) front area }
    {
        self.front = front;
        self.area = area;
    }

    /// The position in the log up to which the watchers were told.
    pub fn front(&self) -> u32
        ensures { result ≡ self.now.front }
    {
        self.front
    }

    /// Tells each watcher that did not leave of the slice, which stands in the log at the front: one note for each row that
    /// its area and that of the hub include, in the order of the log. One that answers Leave gets no further note, and stays
    /// in the hub until it is removed. Answers how many left; the front rises by the length of the slice. Takes no memory
    /// beside what the watchers take for their notes.
    #[tactic(auto, using(crate::proofs::Slots::none_told, crate::proofs::Slots::told_more))]
    pub fn pump<R: Row>(&mut self, slice: &[LogRow<R>]) -> u32
        requires { self.old.front + length slice.now < 2 ^ 32 }
        ensures pumped { IsPumped (hub_seen (λ w. told w) self.old) (hub_seen (λ w. told w) self.new) (slice_rows R.value slice.now) result }
        // so the answers of all pumps of a hub can be added up
        ensures few { count_left (hub_seen (λ w. told w) self.new).members ≤ self.new.added }
    {
        // no more leave than were added: read, so that this is known to fit a u32
        let _added = self.added;
        let mut left = 0;
        for slot in 0..self.members.capacity() {
            left += u32::from(tell_slot(&mut self.members, slot, &self.area, self.front, slice));
        }
        self.front += slice.len() as u32;
        left
    }
}
