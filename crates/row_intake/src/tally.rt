//! How many rows came, and what became of them.

ghost use Rattle.std.specs.Prelude.{◌≡◌, ◌-◌, ◌^◌, ◌<◌, None};
ghost use Rattle.row_intake.specs.Tallies.{IsSum, with_refused, with_told};

use mc_cap::{RefusedRow, RowRefusal};
use ns_state::{LogFull, Told};

/// How many rows came, and what became of them.
#[derive(Clone, Copy, Debug, PartialEq, Eq)]
pub struct Tally {
    /// All of them.
    pub rows: u64,
    /// Those that the log did not cover: they are its last now.
    pub stored: u64,
    /// Those that a row of the log covers.
    pub kept: u64,
    /// Those for which the log had no room.
    pub missed: u64,
    /// Those that are not authorised.
    pub refused: u64,
    /// The first that is not authorised, numbered from 1.
    pub first: Option<RefusedRow>,
}

impl Tally {
    /// No row came yet.
    pub fn new() -> Tally
        ensures { result ≡ record { rows = 0; stored = 0; kept = 0; missed = 0; refused = 0; first = None } }
    {
        Tally {
            rows: 0,
            stored: 0,
            kept: 0,
            missed: 0,
            refused: 0,
            first: None,
        }
    }

    /// With one row more, which is not authorised.
    pub fn with_refused(self, refusal: RowRefusal) -> Tally
        requires few { self.rows < 2 ^ 64 - 1 }
        requires sums { IsSum self }
        ensures { result ≡ with_refused refusal self }
    {
        let row = self.rows + 1;
        Tally {
            rows: row,
            refused: self.refused + 1,
            first: match self.first {
                Some(first) => Some(first),
                None => Some(RefusedRow { row, refusal }),
            },
            ..self
        }
    }

    /// With one authorised row more, by what the log answered to it, if there was memory.
    pub fn with_told(self, told: Result<Told, LogFull>) -> Tally
        requires few { self.rows < 2 ^ 64 - 1 }
        requires sums { IsSum self }
        ensures { result ≡ with_told told self }
    {
        let rows = self.rows + 1;
        match told {
            Ok(Told::Stored { .. }) => Tally {
                rows,
                stored: self.stored + 1,
                ..self
            },
            Ok(Told::Kept { .. }) => Tally {
                rows,
                kept: self.kept + 1,
                ..self
            },
            Err(_) => Tally {
                rows,
                missed: self.missed + 1,
                ..self
            },
        }
    }
}
