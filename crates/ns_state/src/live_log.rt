//! The log of one namespace, with what is live of it by place.

ghost use Rattle.std.specs.Prelude.{◌≡◌, ◌↔◌, ℕ, ◌<◌, ◌≤◌, [], ◌∷◌, ◌++◌, length, map, take, drop, slice_get, IfOk, IfErr, IfSome, IfNone, IsErrOf, IsTrue, OnOk, OnErr, Some, MatchOption};
ghost use Rattle.spelling.specs.declared.ending.End.TheVariants as ends;
ghost use Rattle.willow_entry.specs.Row.{live, new, HasCovering, IsCoveringAt};
ghost use Rattle.ns_state.specs.Log.{IsLog, values, plain_row};
ghost use Rattle.ns_state.specs.Answer.{IsGrown, IsPlaced, IsStored};

use crate::log::{first_cover, is_cover, read_rows, rows_from};
use crate::positions::Positions;
use block_store::{BlockStore, Hint, Snapshot};
use std::alloc::Global;
use std::marker::Model;
use std::sync::Arc;
use willow_entry::{LogRow, Row};
use willow_path::{End, NamespaceKey, NoMemory};

/// The greatest number of rows of a log.
pub const LOG_LIMIT: usize = 65_536;

/// The log has no room for a further row.
#[derive(Clone, Copy, Debug, PartialEq, Eq)]
pub struct LogFull {
    /// The length of the log.
    pub front: u32,
}

/// The log of a namespace, with what is live of it by place. The log and the store share each row.
/// A contract sees the namespace and the log.
#[derive(Drop)]
pub struct LiveLog<R: Row> {
    namespace: NamespaceKey,
    // It is let go before the log, which then frees the rows in the order in which they came: that is faster.
    store: BlockStore<R>,
    log: Vec<LogRow<Arc<R>>>,
}

impl<R: Row> Model for LiveLog<R> {
    ghost use Rattle.std.specs.Prelude.{◌≡◌, map};
    ghost use Rattle.willow_entry.specs.Row.{live};
    ghost use Rattle.ns_state.specs.Log.{StateValue, IsLog, values, plain_row};

    ghost Value = { StateValue R };

    ghost view = { λ l. record { namespace = l.namespace; log = map plain_row l.log.items } };

    ghost invariant = { λ l. IsLog R.value l.namespace (map plain_row l.log.items) × (map R.value l.store ≡ live (values R.value (map plain_row l.log.items))) };
}

impl<R: Row> LiveLog<R> {
    /// The log without rows.
    pub fn new(alloc: Global, namespace: NamespaceKey) -> LiveLog<R>
        ensures namespace { result.namespace ≡ namespace }
        ensures empty { result.log ≡ [] }
    {
        LiveLog {
            namespace,
            log: Vec::new(alloc),
            store: BlockStore::new(alloc),
        }
    }

    /// The namespace.
    pub fn namespace(&self) -> NamespaceKey
        ensures { result ≡ self.now.namespace }
    {
        self.namespace
    }

    // The allocator that the log keeps.
    pub(crate) fn allocator(&self) -> Global {
        *self.log.allocator()
    }

    /// The length of the log.
    pub fn front(&self) -> u32
        ensures front { result ≡ length self.now.log }
        ensures log { IsLog R.value self.now.namespace self.now.log }
    {
        self.log.len() as u32
    }

    /// The row of the log at this position, counted from 0, with the number of its pass; None exactly from the front on.
    pub fn log_row(&self, at: u32) -> Option<&LogRow<Arc<R>>>
        ensures { MatchOption result (length self.now.log ≤ at) (λ held. slice_get self.now.log at ≡ Some (plain_row held.now)) }
    {
        self.log.get(at as usize)
    }

    /// At most `most` rows of the log from the position on, fewer only at the log's end. No row is copied.
    pub fn read_log(&self, from: u32, most: u32) -> Result<Vec<LogRow<Arc<R>>>, NoMemory>
        ensures { IfOk result (λ rows. map plain_row rows.items ≡ take most (drop from self.now.log)) }
    {
        read_rows(self.allocator(), &self.log, from as usize, most as usize)
    }

    /// The rows of the log from this position on, each with the number of its pass; none from the front on. No row is
    /// copied.
    pub fn rows_from(&self, at: u32) -> &[LogRow<Arc<R>>]
        ensures { map plain_row result.now ≡ drop at self.now.log }
    {
        rows_from(&self.log, at as usize)
    }

    /// The live rows of the log, by rising place.
    pub fn store(&self) -> &BlockStore<R>
        ensures live { map R.value result.now ≡ live (values R.value self.now.log) }
        ensures log { IsLog R.value self.now.namespace self.now.log }
    {
        &self.store
    }

    /// The live rows of the log as they are now, by rising place.
    pub fn snapshot(&self) -> Result<Snapshot<R>, NoMemory>
        ensures live { IfOk result (λ snapshot. map R.value snapshot ≡ live (values R.value self.now.log)) }
        ensures few { IfOk result (λ snapshot. length snapshot ≤ LOG_LIMIT) }
        ensures log { IsLog R.value self.now.namespace self.now.log }
    {
        self.store.snapshot()
    }

    /// Whether a row of the log equals or dominates the row. The store tells it by search, without a walk over the log.
    pub fn covers(&self, row: &R) -> bool
        ensures { IsTrue result ↔ HasCovering (values R.value self.now.log) (R.value row.now) }
    {
        self.store.covered_by(row).is_some()
    }

    // A position of the log whose row equals or dominates the row, or, where there is none, where the row goes into the
    // store. The row itself is looked for first, and then the live row that covers it. Only where neither guess is right is
    // the log walked over.
    pub(crate) fn cover(&self, row: &R, positions: &Positions) -> Result<u32, Hint>
        ensures log { IsLog R.value self.now.namespace self.now.log }
        ensures found { IfOk result (λ at. IsCoveringAt (values R.value self.now.log) at (R.value row.now)) }
        ensures none { IfErr result (λ hint. HasCovering (values R.value self.now.log) (R.value row.now) → ⊥) }
    {
        if let Some(at) = self.covering_at(row, positions.of(row)) {
            return Ok(at);
        }
        match self.store.search(row) {
            Ok(by) => Ok(self.cover_near(row, by, positions)),
            Err(hint) => Err(hint),
        }
    }

    // A position of the log whose row equals or dominates the row, where there is one. It may be that of the live row at
    // `by`.
    fn cover_near(&self, row: &R, by: u32, positions: &Positions) -> u32
        requires { HasCovering (values R.value self.now.log) (R.value row.now) }
        ensures { IsCoveringAt (values R.value self.now.log) result (R.value row.now) }
    {
        if let Some(at) = self.covering_at(row, self.guess_of_live(by, positions)) {
            return at;
        }
        match first_cover(&self.log, row) {
            Some(at) => at as u32,
            None => unreachable!(),
        }
    }

    // The position that is guessed, where the log's row there equals or dominates the row.
    fn covering_at(&self, row: &R, guess: Option<u32>) -> Option<u32>
        ensures log { IsLog R.value self.now.namespace self.now.log }
        ensures found { IfSome result (λ at. IsCoveringAt (values R.value self.now.log) at (R.value row.now)) }
    {
        let log = &self.log;
        let at = guess?;
        let held = log.get(at as usize)?;
        if is_cover(held, row) { Some(at) } else { None }
    }

    // Where the live row at this place may stand in the log.
    fn guess_of_live(&self, by: u32, positions: &Positions) -> Option<u32> {
        positions.of(self.store.get(by)?)
    }

    /// Offers a row by the pass of this number. Where a row of the log equals or dominates it, nothing changes and the
    /// answer is None. Else, where the log is full, nothing changes. Else the row is the log's last, at the position
    /// answered. All memory is taken before any change, so an error leaves the log as it was. The store is searched
    /// once, and the log is not walked over.
    pub fn offer(&mut self, pass: u32, row: R) -> Result<Option<u32>, End<LogFull>>
        requires { (R.value row).entry.namespace ≡ self.old.namespace }
        ensures answer { IsGrown R.value self.old.log (record { pass = pass; row = row }) self.new.log result }
        ensures namespace { self.new.namespace ≡ self.old.namespace }
        ensures log { IsLog R.value self.new.namespace self.new.log }
        ensures new { OnOk result (values R.value self.new.log ≡ new (values R.value self.old.log ++ R.value row ∷ [])) }
        ensures err { OnErr result (self.new ≡ self.old) }
        ensures memory { IsErrOf result ends.NoMemory → length self.old.log < LOG_LIMIT }
    {
        if self.log.len() >= LOG_LIMIT {
            return self.offer_full(&row);
        }
        Ok(self.place(pass, row)?)
    }

    // Refuses a row that is offered to a full log, where none covers it.
    fn offer_full(&self, row: &R) -> Result<Option<u32>, End<LogFull>>
        requires { LOG_LIMIT ≤ length self.now.log }
        ensures answer { (pass : ℕ) → IsGrown R.value self.now.log (record { pass = pass; row = row.now }) self.now.log result }
        ensures sure { IsErrOf result ends.NoMemory → ⊥ }
    {
        if self.covers(row) {
            return Ok(None);
        }
        Err(End::Refused(LogFull {
            front: self.front(),
        }))
    }

    // Adds a row to a log that has room, unless a row of the log covers it, and answers its position.
    fn place(&mut self, pass: u32, row: R) -> Result<Option<u32>, NoMemory>
        requires namespace { (R.value row).entry.namespace ≡ self.old.namespace }
        requires room { length self.old.log < LOG_LIMIT }
        ensures placed { IfOk result (λ at. IsPlaced R.value self.old.log (record { pass = pass; row = row }) self.new.log at) }
        ensures namespace { self.new.namespace ≡ self.old.namespace }
        ensures log { IsLog R.value self.new.namespace self.new.log }
        ensures err { OnErr result (self.new ≡ self.old) }
    {
        match self.store.search(&row) {
            Ok(_) => Ok(None),
            Err(hint) => Ok(Some(self.append(pass, row, hint)?)),
        }
    }

    // Adds a row that no row of the log covers to a log that has room, and answers its position. The hint says where the
    // store's search found that it goes in.
    pub(crate) fn append(&mut self, pass: u32, row: R, hint: Hint) -> Result<u32, NoMemory>
        requires namespace { (R.value row).entry.namespace ≡ self.old.namespace }
        requires uncovered { HasCovering (values R.value self.old.log) (R.value row) → ⊥ }
        requires room { length self.old.log < LOG_LIMIT }
        ensures stored { IfOk result (λ at. IsStored R.value self.old.log (record { pass = pass; row = row }) at self.new.log) }
        ensures namespace { self.new.namespace ≡ self.old.namespace }
        ensures log { IsLog R.value self.new.namespace self.new.log }
        ensures err { OnErr result (self.new ≡ self.old) }
    {
        self.log.reserve(1)?;
        let held = Arc::new(*self.log.allocator(), row)?;
        let shared = held.clone()?;
        self.store.ingest_at(shared, hint)?;
        let at = self.log.len();
        self.log.push_reserved(LogRow { pass, row: held });
        Ok(at as u32)
    }
}
