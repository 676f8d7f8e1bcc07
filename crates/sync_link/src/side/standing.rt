//! How a session stands, and why it could not go on.

ghost use Rattle.std.specs.Prelude.{◌≡◌};

use session_end::HelloRefusal;
use spelling::NoMemory;
use sync_core::CoreRefusal;

/// How a session stands that has read some bytes.
#[derive(Clone, Copy, PartialEq, Eq)]
pub enum Standing {
    /// More is due.
    More,
    /// All is said and read.
    Done,
    /// What begins at this offset is no message.
    BadMessage {
        /// Where it begins, counted from the first byte read.
        at: u64,
    },
    /// The other side's hello or proof is refused.
    Hello(HelloRefusal),
    /// An item of the other side is refused.
    Core(CoreRefusal),
}

/// Why a session could not go on.
#[derive(Clone, Copy, Debug, PartialEq, Eq)]
pub enum Stop {
    /// The own signer failed, or has nothing left.
    SignFault,
    /// No memory was found.
    NoMemory,
}

impl From<NoMemory> for Stop {
    ghost use Rattle.sync_link.specs.declared.side.standing.Stop.TheVariants as stops;

    ghost from_gives = { λ _ e. e ≡ stops.NoMemory };

    fn from(_e: NoMemory) -> Stop {
        Stop::NoMemory
    }
}
