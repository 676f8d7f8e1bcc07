//! What options say of an area.

ghost use Rattle.std.specs.Prelude.{◌≡◌, List, MatchBool, MatchOption, IfOk, IsErrOf, OnErr, true, false};
ghost use Rattle.spelling.specs.declared.ending.End.TheVariants as ends;
ghost use Rattle.willow_area.specs.Times.{ends_by};
ghost use Rattle.peer_words.specs.Areas.{HasArea, AreRising, Completes, completed, is_empty};
ghost use Rattle.peer_words.specs.Memory.{AreaWordsAsk};
ghost use Rattle.peer_words.specs.Words.{Reads};

use crate::command::{AreaWords, Usage};
use crate::options::Options;
use std::alloc::Global;
use willow_area::{Area, TimeRange};
use willow_path::{End, NoMemory, Path, UserKey};

impl AreaWords {
    /// The area of the words, where a field without a word is that of `area`, as a capability grants it. None comes
    /// exactly where the times that are completed so are empty. Only a path of the words needs memory, where there are
    /// times.
    pub fn completed(&self, area: Area) -> Result<Option<Area>, NoMemory>
        ensures completes { IfOk result (λ whole. Completes self.now area whole) }
        ensures times { OnErr result (is_empty (completed self.now area) ≡ false) }
    {
        let Area {
            subspace,
            path,
            times,
        } = area;
        let start = self.from.unwrap_or(times.start());
        let end = self.until.unwrap_or(times.end());
        let Some(times) = times_of(start, end) else {
            return Ok(None);
        };
        let path = match &self.under {
            Some(path) => path.copy()?,
            None => path,
        };
        Ok(Some(Area {
            subspace: self.subspace.unwrap_or(subspace),
            path,
            times,
        }))
    }
}

// The times from a start up to an end, where there are some.
fn times_of(start: u64, end: Option<u64>) -> Option<TimeRange>
    ensures { MatchOption result (ends_by end start ≡ true) (λ times. (times ≡ record { start = start; end = end }) × (ends_by end start ≡ false)) }
{
    TimeRange::new(start, end)
}

// Whether an end that is a number is above the start, where both are given.
fn are_rising(start: Option<u64>, end: Option<Option<u64>>) -> bool
    ensures { MatchBool result (AreRising start end) (AreRising start end → ⊥) }
{
    match (start, end) {
        (Some(start), Some(Some(end))) => start < end,
        _ => true,
    }
}

/// What the options say of an area. Memory is asked for only for its path, behind its times and its subspace.
pub(crate) fn area_of(alloc: Global, options: &Options) -> Result<AreaWords, End<Usage>>
    ensures reads { Reads (HasArea options.now) result }
    ensures asked { IsErrOf result ends.NoMemory → AreaWordsAsk options.now }
{
    let from = options.given_if::<u64>(alloc, "--from")?;
    let until = options.given_if::<Option<u64>>(alloc, "--until")?;
    options.have_own_names();
    if !are_rising(from, until) {
        return Err(End::Refused(Usage));
    }
    let subspace = options.given_if::<Option<UserKey>>(alloc, "--subspace")?;
    let under = options.given_if::<Path>(alloc, "--under")?;
    Ok(AreaWords {
        subspace,
        under,
        from,
        until,
    })
}
