//! What a pass knows. No value of these types is made: they stand in proofs alone, where a `LinkedList` is a list and a
//! number has no bound.

use std::collections::LinkedList;
use willow_entry::LogRow;

/// How a pass stands to the turn.
pub enum Role {
    /// It wants no turn.
    Idle,
    /// It drew this ticket.
    Waits(u64),
    /// Its ticket is served: it has the turn, and the state is out of the slot with it.
    Holds(u64),
}

/// The rows that a pass was told Stored, in order, with the pass's number. The book of pass 0 begins with the rows of the
/// opening log.
pub struct Book<R> {
    pub number: u64,
    pub rows: LinkedList<LogRow<R>>,
}

/// What of a cell never changes: how many passes it has, and the namespace of its rows.
pub struct CellFacts {
    pub passes: u64,
    pub namespace: LinkedList<u8>,
}

/// What a seat of the table knows. A pass has a seat; others are lent for a moment.
pub struct View<R> {
    pub cell: CellFacts,
    /// Its parts of the right to know all. There are as many as passes: each pass has one, and a seat that took other
    /// passes in has theirs too.
    pub parts: u64,
    /// At the seat from which the passes are made, how many are made. At the others 0.
    pub made: u64,
    pub role: Role,
    /// The whole log as it stood at the end of each turn that it has had, one after the other.
    pub turns: LinkedList<LinkedList<LogRow<R>>>,
    /// The prefix of the log that it has seen.
    pub seen: LinkedList<LogRow<R>>,
    /// Prefixes that it, or a seat that it took in, had seen before.
    pub older: LinkedList<LinkedList<LogRow<R>>>,
    /// Its own book, and those of the passes that it took in.
    pub books: LinkedList<Book<R>>,
}
