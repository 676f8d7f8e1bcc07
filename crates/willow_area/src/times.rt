//! Ranges of times.

ghost use Rattle.std.specs.Prelude.{◌≡◌, ◌≤◌, None, IfSome, IsSomeAnd, MatchOption, true, false};
ghost use Rattle.std.specs.Ordering.{nat_cmp};
ghost use Rattle.willow_area.specs.Range.{is_inside, lower, upper};
ghost use Rattle.willow_area.specs.Times.{IsTimes, in_times, ends_later, earlier_end, includes_times, meet_times};

use std::marker::Model;

/// The times from a start on and, where there is an end, below it. The end is above the start.
#[derive(Clone, Copy, PartialEq, Eq)]
pub struct TimeRange {
    start: u64,
    end: Option<u64>,
}

impl Model for TimeRange {
    ghost use Rattle.willow_area.specs.Times.{Times, IsTimes};

    ghost Value = { Times };

    ghost view = { λ t. record { start = t.start; end = t.end } };

    ghost invariant = { λ t. IsTimes (record { start = t.start; end = t.end }) };

    ghost inverse = { λ v. record { start = v.start; end = v.end } };
}

impl TimeRange {
    /// The range from the start on, below the end; None exactly where there is an end that is at most
    /// the start.
    pub fn new(start: u64, end: Option<u64>) -> Option<TimeRange>
        ensures { MatchOption result (IsSomeAnd end (λ end. end ≤ start)) (λ times. (times ≡ record { start = start; end = end }) × IsTimes times) }
    {
        if end.is_some_and(|end| end <= start) {
            return None;
        }
        Some(TimeRange { start, end })
    }

    /// Whether the time is at least the start and, where there is an end, below it.
    pub fn includes(&self, time: u64) -> bool
        ensures { result ≡ in_times self.now time }
    {
        self.start <= time && self.end.is_none_or(|end| time < end)
    }

    /// The first time.
    pub fn start(&self) -> u64
        ensures start { result ≡ self.now.start }
        ensures times { IsTimes self.now }
    {
        self.start
    }

    /// The first time that is too late, where there is one.
    pub fn end(&self) -> Option<u64>
        ensures end { result ≡ self.now.end }
        ensures times { IsTimes self.now }
    {
        self.end
    }

    // All times.
    pub(crate) fn all() -> TimeRange
        ensures all { result ≡ record { start = 0; end = None } }
        ensures times { IsTimes result }
    {
        TimeRange {
            start: 0,
            end: None,
        }
    }

    // Whether each time of the other range is in this one.
    pub(crate) fn includes_range(&self, other: &TimeRange) -> bool
        ensures { result ≡ includes_times self.now other.now }
    {
        self.start <= other.start && ends_later(self.end, other.end)
    }

    // The times below the time, and those from it on; None where the time is at most the start, or at least
    // the end.
    pub(crate) fn cut(&self, time: u64) -> Option<(TimeRange, TimeRange)>
        ensures inside { MatchOption result (is_inside nat_cmp self.now time ≡ false) (λ _. is_inside nat_cmp self.now time ≡ true) }
        ensures lower { IfSome result (λ parts. (parts.0 ≡ lower self.now time) × IsTimes parts.0) }
        ensures upper { IfSome result (λ parts. (parts.1 ≡ upper self.now time) × IsTimes parts.1) }
    {
        if time <= self.start || self.end.is_some_and(|end| end <= time) {
            return None;
        }
        let lower = TimeRange {
            start: self.start,
            end: Some(time),
        };
        let upper = TimeRange {
            start: time,
            end: self.end,
        };
        Some((lower, upper))
    }

    // The times that both ranges have; None where there are none.
    pub(crate) fn intersect(&self, other: &TimeRange) -> Option<TimeRange>
        ensures { result ≡ meet_times self.now other.now }
    {
        TimeRange::new(
            self.start.max(other.start),
            earlier_end(self.end, other.end),
        )
    }
}

// Whether the first end is not before the second.
fn ends_later(own: Option<u64>, other: Option<u64>) -> bool
    ensures { result ≡ ends_later own other }
{
    match (own, other) {
        (None, _) => true,
        (Some(_), None) => false,
        (Some(own), Some(other)) => other <= own,
    }
}

// The earlier of two ends.
fn earlier_end(own: Option<u64>, other: Option<u64>) -> Option<u64>
    ensures { result ≡ earlier_end own other }
{
    match (own, other) {
        (None, _) => other,
        (Some(_), None) => own,
        (Some(own), Some(other)) => Some(own.min(other)),
    }
}
