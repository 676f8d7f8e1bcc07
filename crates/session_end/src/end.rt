//! Why a session ended before the exchange was done and all that was read kept.

use crate::refusal::HelloRefusal;
use sync_msg::CoreRefusal;

/// Why a session did not come to its end. Offsets count the bytes read from the session's first on, from 0.
#[derive(Clone, Copy, Debug, PartialEq, Eq)]
pub enum SessionEnd {
    /// A read of the link failed.
    LinkRead,
    /// A write to the link failed.
    LinkWrite,
    /// The other side ended after so many bytes, and more was due.
    ClosedEarly {
        /// How many bytes were read.
        at: u64,
    },
    /// What begins at this offset is no message.
    BadMessage {
        /// Where it begins.
        at: u64,
    },
    /// The other side's hello or proof is refused.
    Hello(HelloRefusal),
    /// An item of the other side is refused.
    Core(CoreRefusal),
    /// The own signer failed.
    SignFault,
    /// All that was due was said and read, but the log is full and leaves some of the rows read uncovered.
    LogFull {
        /// How many authorised rows it leaves uncovered, at least one.
        missed: u64,
    },
    /// No memory was found.
    NoMemory,
}
