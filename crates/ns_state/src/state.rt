//! The state of one namespace.

ghost use Rattle.std.specs.Prelude.{◌≡◌, ◌<◌, ◌≤◌, [], ◌∷◌, ◌++◌, length, map, take, drop, slice_get, IfOk, OnOk, OnErr, Some, MatchOption};
ghost use Rattle.willow_entry.specs.Row.{live, new, HasCovering};
ghost use Rattle.ns_state.specs.Log.{IsLog, values, logged, plain_row};
ghost use Rattle.ns_state.specs.Recent.{recent};
ghost use Rattle.ns_state.specs.Answer.{IsStored, IsAnswer, IsOffer};

use crate::live_log::{LOG_LIMIT, LiveLog, LogFull};
use crate::positions::{Positions, hash_of};
use crate::ranking::gone_items;
use block_store::{Hint, Snapshot};
use recency_index::{Ranked, Recency};
use std::alloc::Global;
use std::marker::Model;
use std::sync::Arc;
use willow_entry::{LogRow, Row};
use willow_path::{End, NamespaceKey, NoMemory};

/// What became of a row that was offered.
#[derive(Clone, Copy, Debug, PartialEq, Eq)]
pub enum Told {
    /// It is the log's row at this position, counted from 0.
    Stored { at: u32 },
    /// The log's row at this position equals or dominates it, so nothing changed.
    Kept { at: u32 },
}

/// The log of a namespace, with what is live of it, by place and by recency. A contract sees the namespace and the log.
#[derive(Drop)]
pub struct NsState<R: Row> {
    log: LiveLog<R>,
    recency: Recency,
    positions: Positions,
}

impl<R: Row> Model for NsState<R> {
    ghost use Rattle.std.specs.Prelude.{◌≡◌};
    ghost use Rattle.ns_state.specs.Log.{StateValue};
    ghost use Rattle.ns_state.specs.Recent.{recent};

    ghost Value = { StateValue R };

    ghost view = { λ s. s.log };

    ghost invariant = { λ s. s.recency.items ≡ recent R.value s.log.log };
}

impl<R: Row> NsState<R> {
    /// The state without rows.
    pub fn new(alloc: Global, namespace: NamespaceKey) -> NsState<R>
        ensures namespace { result.namespace ≡ namespace }
        ensures empty { result.log ≡ [] }
    {
        NsState {
            log: LiveLog::new(alloc, namespace),
            recency: Recency::new(alloc),
            positions: Positions::new(alloc),
        }
    }

    /// The namespace.
    pub fn namespace(&self) -> NamespaceKey
        ensures { result ≡ self.now.namespace }
    {
        self.log.namespace()
    }

    /// The length of the log.
    pub fn front(&self) -> u32
        ensures front { result ≡ length self.now.log }
        ensures log { IsLog R.value self.now.namespace self.now.log }
    {
        self.log.front()
    }

    /// The row of the log at this position, counted from 0, with the number of its pass; None exactly from the front on.
    pub fn log_row(&self, at: u32) -> Option<&LogRow<Arc<R>>>
        ensures { MatchOption result (length self.now.log ≤ at) (λ held. slice_get self.now.log at ≡ Some (plain_row held.now)) }
    {
        self.log.log_row(at)
    }

    /// At most `most` rows of the log from the position on, fewer only at the log's end. No row is copied.
    pub fn read_log(&self, from: u32, most: u32) -> Result<Vec<LogRow<Arc<R>>>, NoMemory>
        ensures { IfOk result (λ rows. map plain_row rows.items ≡ take most (drop from self.now.log)) }
    {
        self.log.read_log(from, most)
    }

    /// Offers a row by the pass of this number. Where a row of the log equals or dominates it, nothing changes and the
    /// answer names such a row. Else, where the log is full, nothing changes. Else the row is the log's last.
    /// All memory is taken before any change, so an error leaves the state as it was. Want of memory comes only where the
    /// log has room.
    pub fn ingest(&mut self, pass: u32, row: R) -> Result<Told, End<LogFull>>
        requires { (R.value row).entry.namespace ≡ self.old.namespace }
        ensures answer { IsAnswer R.value self.old.log (record { pass = pass; row = row }) self.new.log result }
        ensures offer { IsOffer (logged R.value self.old.log) (record { pass = pass; row = R.value row }) (logged R.value self.new.log) result }
        ensures namespace { self.new.namespace ≡ self.old.namespace }
        ensures log { IsLog R.value self.new.namespace self.new.log }
        ensures live { OnOk result (live (values R.value self.new.log) ≡ live (values R.value self.old.log ++ R.value row ∷ [])) }
        ensures new { OnOk result (values R.value self.new.log ≡ new (values R.value self.old.log ++ R.value row ∷ [])) }
        ensures covers { OnOk result (HasCovering (values R.value self.new.log) (R.value row)) }
        ensures err { OnErr result (self.new ≡ self.old) }
    {
        match self.log.cover(&row, &self.positions) {
            Ok(at) => Ok(Told::Kept { at }),
            Err(hint) => self.offer_new(pass, row, hint),
        }
    }

    // Offers a row that no row of the log covers: it is stored where the log has room.
    fn offer_new(&mut self, pass: u32, row: R, hint: Hint) -> Result<Told, End<LogFull>>
        requires namespace { (R.value row).entry.namespace ≡ self.old.namespace }
        requires uncovered { HasCovering (values R.value self.old.log) (R.value row) → ⊥ }
        ensures answer { IsAnswer R.value self.old.log (record { pass = pass; row = row }) self.new.log result }
        ensures namespace { self.new.namespace ≡ self.old.namespace }
        ensures log { IsLog R.value self.new.namespace self.new.log }
        ensures err { OnErr result (self.new ≡ self.old) }
    {
        let front = self.front();
        if front as usize >= LOG_LIMIT {
            return Err(End::Refused(LogFull { front }));
        }
        let at = self.append(pass, row, hint)?;
        Ok(Told::Stored { at })
    }

    // Stores a row that no row of the log covers, in a log that has room, and answers its position. The store is not
    // searched again.
    fn append(&mut self, pass: u32, row: R, hint: Hint) -> Result<u32, NoMemory>
        requires namespace { (R.value row).entry.namespace ≡ self.old.namespace }
        requires uncovered { HasCovering (values R.value self.old.log) (R.value row) → ⊥ }
        requires room { length self.old.log < LOG_LIMIT }
        ensures stored { IfOk result (λ at. IsStored R.value self.old.log (record { pass = pass; row = row }) at self.new.log) }
        ensures namespace { self.new.namespace ≡ self.old.namespace }
        ensures log { IsLog R.value self.new.namespace self.new.log }
        ensures err { OnErr result (self.new ≡ self.old) }
    {
        let gone = gone_items(self.log.store(), &row, hint)?;
        let item = Ranked::of(row.entry())?;
        self.recency.reserve(1)?;
        self.positions.reserve()?;
        let hash = hash_of(&row);
        let at = self.log.append(pass, row, hint)?;
        self.recency.replace(&gone, item);
        self.positions.put(hash, at);
        Ok(at)
    }

    /// What is live of the log, by rising place.
    pub fn snapshot(&self) -> Result<Snapshot<R>, NoMemory>
        ensures { IfOk result (λ snapshot. map R.value snapshot ≡ live (values R.value self.now.log)) }
    {
        self.log.snapshot()
    }

    /// The item of the n-th of the live rows, counted from 0, the most recent first; None exactly from their number on.
    pub fn nth_newest(&self, n: u32) -> Option<&Ranked>
        ensures { MatchOption result (length (recent R.value self.now.log) ≤ n) (λ item. slice_get (recent R.value self.now.log) n ≡ Some item.now) }
    {
        self.recency.nth_newest(n)
    }
}
