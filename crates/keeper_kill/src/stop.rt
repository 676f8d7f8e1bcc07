//! Why a task is not done.

use log_keeper::KeepRefusal;
use spelling::{End, NoMemory};
use std::{fmt, io};

/// Why a task is not done.
#[derive(Clone, Copy, Debug)]
pub(crate) enum Stop {
    /// The word is none of a task.
    NoTask,
    /// There is no such file, and none can be made.
    NoFile,
    /// The file holds no log.
    NoLog,
    /// The generator has fewer rows.
    NoMoreRows,
    /// A call of the keeper was refused.
    Refused(KeepRefusal),
    /// What the file holds could not be told.
    Untold,
    /// No memory was found.
    NoMemory,
}

impl fmt::Display for Stop {
    fn fmt<W: fmt::Write>(&self, f: &mut fmt::Formatter<W>) -> fmt::Result {
        match self {
            Stop::NoTask => f.write_str("a word is as 'keep log 3 256', 'check log' or 'open log'"),
            Stop::NoFile => f.write_str("no file"),
            Stop::NoLog => f.write_str("no log"),
            Stop::NoMoreRows => f.write_str("no more rows"),
            Stop::Refused(why) => write!(f, "{why:?}"),
            Stop::Untold => f.write_str("untold"),
            Stop::NoMemory => f.write_str("no memory"),
        }
    }
}

impl From<NoMemory> for Stop {
    fn from(_e: NoMemory) -> Stop {
        Stop::NoMemory
    }
}

impl From<io::Error> for Stop {
    fn from(_e: io::Error) -> Stop {
        Stop::Untold
    }
}

impl From<End<KeepRefusal>> for Stop {
    fn from(why: End<KeepRefusal>) -> Stop {
        match why {
            End::Refused(why) => Stop::Refused(why),
            End::NoMemory => Stop::NoMemory,
        }
    }
}
