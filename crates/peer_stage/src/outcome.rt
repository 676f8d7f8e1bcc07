//! How a command ends: as plain numbers and causes, before any status or text is made of it.

ghost use Rattle.std.specs.Prelude.{◌≡◌};
ghost use Rattle.peer_stage.specs.declared.outcome.Origin.TheVariants as origin;
ghost use Rattle.peer_stage.specs.declared.outcome.Stop.TheVariants as stop;

use mc_cap::{RefusedRow, RowRefusal};
use session_end::{HelloRefusal, SessionEnd};
use spelling::NoMemory;

/// The numbers of a join: every row read, those stored when they came, those that an earlier row covered,
/// and those that are not authorised, with the first of these.
#[derive(Clone, Copy, PartialEq, Eq)]
pub struct JoinCounts {
    /// All rows of the input.
    pub rows: u64,
    /// Authorised rows that no earlier one covered.
    pub stored: u64,
    /// Authorised rows that an earlier one covered.
    pub kept: u64,
    /// Rows that are not authorised.
    pub refused: u64,
    /// The first row that is not authorised; None where there is none.
    pub first: Option<RefusedRow>,
}

/// The numbers of a listing: every row of the image, and those that are not authorised, with the first of these.
#[derive(Clone, Copy, PartialEq, Eq)]
pub struct ShowCounts {
    /// All rows of the image.
    pub rows: u64,
    /// Rows that are not authorised.
    pub refused: u64,
    /// The first row that is not authorised; None where there is none.
    pub first: Option<RefusedRow>,
}

/// The numbers of one side of a meeting: the authorised rows of its image, and of the rows that came to it those
/// stored and those that an earlier row covered.
#[derive(Clone, Copy)]
pub struct SideCounts {
    /// Authorised rows of the image.
    pub rows: u64,
    /// Rows that came and that no earlier one covered.
    pub stored: u64,
    /// Rows that came and that an earlier one covered.
    pub kept: u64,
}

/// The numbers of a meeting: those of both sides, the counted items and the turns of the exchange, and the first row
/// of the images that is not authorised, counted over the left image and then the right one.
#[derive(Clone, Copy)]
pub struct MeetCounts {
    /// The side that began.
    pub left: SideCounts,
    /// The side that answered.
    pub right: SideCounts,
    /// Counted items of both sides.
    pub items: u32,
    /// Turns of both sides.
    pub turns: u64,
    /// The first row that is not authorised; None where there is none.
    pub first: Option<RefusedRow>,
}

/// The numbers of a session with the one at the other end of a link, which was done.
#[derive(Clone, Copy)]
pub struct SessionCounts {
    /// How many rows the log had as the session began.
    pub opened: u32,
    /// How many it had at the end.
    pub closed: u32,
    /// Rows that came and that were stored.
    pub stored: u32,
    /// Rows that came and that a row of the log covered.
    pub kept: u64,
    /// Rows that came and are not authorised.
    pub refused: u64,
    /// Counted items that were sent.
    pub sent: u32,
    /// Counted items that were read.
    pub read: u32,
}

/// The numbers of a feed that was read whole behind a session: every row of it, those stored when they came, those that
/// a row of the log covered, and those that are not authorised.
#[derive(Clone, Copy)]
pub struct FollowCounts {
    /// All rows of the feed.
    pub read: u32,
    /// Rows of it that were stored.
    pub stored: u32,
    /// Rows of it that a row of the log covered.
    pub kept: u32,
    /// Rows of it that are not authorised.
    pub refused: u32,
}

/// The numbers of a watch: those of the rows of the input, as in a join, the first row that is not authorised, and how
/// many watchers left.
#[derive(Clone, Copy)]
pub struct WatchCounts {
    /// All rows of the input.
    pub rows: u64,
    /// Authorised rows of the input that no row of the image and no earlier one covered.
    pub stored: u64,
    /// Authorised rows of the input that a row of the image or an earlier one covered.
    pub kept: u64,
    /// Rows of the input that are not authorised.
    pub refused: u64,
    /// The first row that is not authorised, counted over the image and then the input; None where there is none.
    pub first: Option<RefusedRow>,
    /// Watchers that left in the run.
    pub left: u32,
}

/// What came of sessions over links: how that of each link ended, which stops nothing, nor does what followed it on its
/// link, whether all links came, and whether the image was put behind them.
#[derive(Drop)]
pub struct Hosted {
    /// Whether links were waited for, as a server does: then what is told of each has its number. Else one was called for.
    pub awaited: bool,
    /// How the session of each link ended, in the order in which the links came: its numbers, or how else.
    pub sessions: Vec<Result<SessionCounts, SessionEnd>>,
    /// What came of following behind the session of each link, in the same order: the numbers of a feed that was read
    /// whole, or how else the following ended; None where nothing was followed, or a feed was written whole. Empty where
    /// no link is followed.
    pub tails: Vec<Option<Result<FollowCounts, SessionEnd>>>,
    /// Whether as many links came as were asked for; where not, accepting one failed.
    pub all_came: bool,
    /// The first row that is not authorised, counted over the image, then the file of the log, and then the rows that
    /// came, link by link, those of a session before those of the feed behind it; None where there is none.
    pub first: Option<RefusedRow>,
    /// Watchers that left in the run.
    pub left: u32,
    /// How many rows the file of the log held when it was last made, opened or written; None where no log was kept.
    pub kept: Option<u64>,
    /// Whether the image was put, and with a log every row kept before; where not, writing failed.
    pub put: bool,
}

/// What came of a server that stopped while it had a log open: the stop, and what the log keeps all the same.
#[derive(Drop)]
pub struct Stopped {
    /// Why it stopped.
    pub stop: Stop,
    /// How many rows the file of the log held when it was last made, opened or written.
    pub kept: u64,
}

/// What a command did that came to its end, or has more to tell than why it stopped. What it met on the way gives the
/// status: the rows that were left out, and where there are sessions how these and what is behind them ended, whether all
/// links came, and whether the image was put.
#[derive(Drop)]
pub enum Done {
    /// Rows were joined.
    Joined(JoinCounts),
    /// An image was listed.
    Shown(ShowCounts),
    /// Two stores met.
    Met(MeetCounts),
    /// Sessions were run over links, and the image put or tried to be put.
    Hosted(Hosted),
    /// The server stopped, with a log open.
    Stopped(Stopped),
    /// The rows of the input were told as they came, and the image was put.
    Watched(WatchCounts),
    /// What was to be made is written; there is nothing to report.
    Made,
}

/// Where bytes came from.
#[derive(Debug, Drop)]
pub enum Origin {
    /// The input.
    Input,
    /// A name of the shelf.
    Name(String),
}

/// Why a command stopped before its end.
#[derive(Debug, Drop)]
pub enum Stop {
    /// The words are no command.
    Usage,
    /// Reading failed.
    ReadFault,
    /// Writing failed.
    WriteFault,
    /// The bytes are not in their grammar from this offset on, or are too many.
    BadInput { origin: Origin, at: u64 },
    /// A row of an image, counted from 1, is not above the row before it.
    NotRising { origin: Origin, row: u32 },
    /// A row of an image is dominated by an earlier one, both counted from 1.
    Pruned { origin: Origin, row: u32, by: u32 },
    /// The shelf has no such name.
    Missing { name: String },
    /// The shelf has the name already.
    Taken { name: String },
    /// What was to be made is not authorised.
    Refused(RowRefusal),
    /// A session is refused before it begins, or two images are of different namespaces.
    SessionRefused(HelloRefusal),
    /// No memory was found.
    NoMemory,
    /// A row that would be stored met a full log.
    LogFull,
    /// A key file has fewer indices left than were asked for.
    KeySpent,
}

impl Stop {
    /// The input goes wrong at this offset.
    pub fn bad_input(at: u64) -> Stop
        ensures { result ≡ stop.BadInput origin.Input at }
    {
        Stop::BadInput {
            origin: Origin::Input,
            at,
        }
    }
}

impl From<NoMemory> for Stop {
    ghost use Rattle.std.specs.Prelude.{◌≡◌};
    ghost use Rattle.peer_stage.specs.declared.outcome.Stop.TheVariants as stop;

    ghost from_gives = { λ _ e. e ≡ stop.NoMemory };

    fn from(_e: NoMemory) -> Stop {
        Stop::NoMemory
    }
}
