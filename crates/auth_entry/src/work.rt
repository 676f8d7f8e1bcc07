//! How much work signatures are, and for how much threads are worth starting.

ghost use Rattle.std.specs.Prelude.{◌<◌};

// Signatures of so many bytes are worth a thread of their own: one of an LMS key is.
const WORTH: usize = 1_024;

// A signature of so few bytes is one of an open key, which is checked in less time than a thread takes to start.
const SHORT: usize = 32;

// Of so many rows the short signatures are worth threads too.
const MANY: usize = 1_024;

// So many rows are judged together on one thread: few enough that what is noted of them stays in its caches.
const SEGMENT: usize = 1_024;

// And so many where the short signatures are shared out: enough for some processors.
const SHARED_SEGMENT: usize = 4_096;

/// Which signatures are checked in threads.
#[derive(Clone, Copy)]
pub(crate) enum Sharing {
    /// None.
    Nothing,
    /// Long ones, where they are work enough.
    Long,
    /// Long ones so, and short ones by chunks.
    All,
}

impl Sharing {
    /// What is shared out of a call with so many rows, where the checker takes threads or does not.
    pub(crate) fn of(takes_threads: bool, rows: usize) -> Sharing {
        if !takes_threads {
            Sharing::Nothing
        } else if rows < MANY {
            Sharing::Long
        } else {
            Sharing::All
        }
    }

    /// How many rows are judged together.
    pub(crate) fn segment(self) -> usize
        ensures { 0 < result }
    {
        match self {
            Sharing::Nothing | Sharing::Long => SEGMENT,
            Sharing::All => SHARED_SEGMENT,
        }
    }

    /// Whether long signatures that are so much work are shared out: where there is enough for two threads.
    pub(crate) fn takes_long(self, work: usize) -> bool {
        match self {
            Sharing::Nothing => false,
            Sharing::Long | Sharing::All => work >= 2 * WORTH,
        }
    }

    /// Whether short signatures are shared out by chunks.
    pub(crate) fn takes_short(self) -> bool {
        match self {
            Sharing::Nothing | Sharing::Long => false,
            Sharing::All => true,
        }
    }
}

/// How many of a signature's bytes count as work: none of a short one's.
pub(crate) fn work_of(signature: &[u8]) -> usize {
    signature.len().saturating_sub(SHORT)
}

/// How many of so many checks one thread makes at least, where they are so much work together.
pub(crate) fn least_checks(count: usize, work: usize) -> usize
    ensures { 0 < result }
{
    (count / (work / WORTH).max(1)).max(1)
}
