//! Boxes: the ranges in which the entries of an area stand.

ghost use Rattle.std.specs.Prelude.{◌≡◌, Some, None, IfOk, MatchOption, not};
ghost use Rattle.std.specs.Ordering.{nat_cmp};
ghost use Rattle.spelling.specs.Answers.{JudgesFirst, cause_if};
ghost use Rattle.willow_path.specs.Path.{part_cmp, path_cmp};
ghost use Rattle.willow_area.specs.Range.{is_before_end, in_range, is_inside, IsRising, lower, upper};
ghost use Rattle.willow_area.specs.Times.{IsTimes};
ghost use Rattle.willow_area.specs.AreaBox.{HasTriplesOf, area_box, key_range};
ghost use Rattle.willow_area.specs.Boxes.{IsBox, in_box};
ghost use Rattle.willow_area.specs.Cuts.{cut_refusal, lower_part, upper_part, HasWhatIsBelow, HasTheRest};

use crate::area::Area;
use crate::cut::{CutAt, CutOutside};
use crate::times::TimeRange;
use std::alloc::Global;
use std::marker::Model;
use willow_path::{End, NoMemory, Path, UserKey};

/// A range of keys, a range of paths and a range of times: each from a start on and, where there is an end,
/// below it. Each start is below its end.
#[derive(Drop)]
pub struct Box3 {
    key_start: UserKey,
    key_end: Option<UserKey>,
    path_start: Path,
    path_end: Option<Path>,
    times: TimeRange,
}

impl Model for Box3 {
    ghost use Rattle.willow_area.specs.Boxes.{Ranges, IsBox};

    ghost Value = { Ranges };

    ghost view = { λ b. record { keys = record { start = b.key_start; end = b.key_end }; paths = record { start = b.path_start; end = b.path_end }; times = b.times } };

    ghost invariant = { λ b. IsBox (record { keys = record { start = b.key_start; end = b.key_end }; paths = record { start = b.path_start; end = b.path_end }; times = b.times }) };
}

impl Box3 {
    /// The least key.
    pub fn key_start(&self) -> &UserKey
        ensures { result.now ≡ self.now.keys.start }
    {
        &self.key_start
    }

    /// The first key that is too great, where there is one.
    pub fn key_end(&self) -> Option<&UserKey>
        ensures { MatchOption result (self.now.keys.end ≡ None) (λ key. self.now.keys.end ≡ Some key.now) }
    {
        self.key_end.as_ref()
    }

    /// The least path.
    pub fn path_start(&self) -> &Path
        ensures { result.now ≡ self.now.paths.start }
    {
        &self.path_start
    }

    /// The first path that is too great, where there is one.
    pub fn path_end(&self) -> Option<&Path>
        ensures { MatchOption result (self.now.paths.end ≡ None) (λ path. self.now.paths.end ≡ Some path.now) }
    {
        self.path_end.as_ref()
    }

    /// The times.
    pub fn times(&self) -> &TimeRange
        ensures times { result.now ≡ self.now.times }
        ensures rising { IsBox self.now }
    {
        &self.times
    }

    /// Whether the box includes an entry of this subspace, path and time: each is in its range.
    #[tactic(auto, unfolding(crate::specs::Boxes::in_box))]
    pub fn includes(&self, subspace: &UserKey, path: &Path, time: u64) -> bool
        ensures { result ≡ in_box self.now subspace.now path.now time }
    {
        self.has_key(subspace) && self.has_path(path) && self.times.includes(time)
    }

    /// An equal box.
    pub fn copy(&self) -> Result<Box3, NoMemory>
        ensures { IfOk result (λ copy. copy ≡ self.now) }
    {
        Ok(Box3 {
            key_start: self.key_start,
            key_end: self.key_end,
            path_start: self.path_start.copy()?,
            path_end: copy_end(&self.path_end)?,
            times: self.times,
        })
    }

    /// The part of the box below the point, and the part from the point on. It is refused exactly where the
    /// point is at most the start, or at least the end, of its range.
    pub fn cut(&self, at: &CutAt) -> Result<(Box3, Box3), End<CutOutside>>
        ensures answer { JudgesFirst result (cut_refusal self.now at.now) }
        ensures lower { IfOk result (λ parts. parts.0 ≡ lower_part self.now at.now) }
        ensures upper { IfOk result (λ parts. parts.1 ≡ upper_part self.now at.now) }
        ensures below { IfOk result (λ parts. HasWhatIsBelow parts.0 self.now at.now) }
        ensures rest { IfOk result (λ parts. HasTheRest parts.1 self.now at.now) }
    {
        self.parts(at)
    }

    // Both parts of a cut.
    #[tactic(auto, unfolding(crate::specs::Cuts::can_cut, crate::specs::Cuts::lower_part, crate::specs::Cuts::upper_part))]
    fn parts(&self, at: &CutAt) -> Result<(Box3, Box3), End<CutOutside>>
        ensures answer { JudgesFirst result (cut_refusal self.now at.now) }
        ensures lower { IfOk result (λ parts. parts.0 ≡ lower_part self.now at.now) }
        ensures upper { IfOk result (λ parts. parts.1 ≡ upper_part self.now at.now) }
    {
        match at {
            CutAt::Subspace(key) => self.cut_keys(key),
            CutAt::Path(path) => self.cut_paths(path),
            CutAt::Time(time) => self.cut_times(*time),
        }
    }

    // Both parts of a cut at a key.
    fn cut_keys(&self, key: &UserKey) -> Result<(Box3, Box3), End<CutOutside>>
        ensures answer { JudgesFirst result (cause_if (not (is_inside part_cmp self.now.keys key.now)) (record {})) }
        ensures lower { IfOk result (λ parts. parts.0 ≡ record { keys = lower self.now.keys key.now; paths = self.now.paths; times = self.now.times }) }
        ensures upper { IfOk result (λ parts. parts.1 ≡ record { keys = upper self.now.keys key.now; paths = self.now.paths; times = self.now.times }) }
    {
        if self.key_inside(key) {
            let lower = self.with_keys(self.key_start, Some(*key))?;
            let upper = self.with_keys(*key, self.key_end)?;
            Ok((lower, upper))
        } else {
            Err(End::Refused(CutOutside))
        }
    }

    // Both parts of a cut at a path.
    fn cut_paths(&self, path: &Path) -> Result<(Box3, Box3), End<CutOutside>>
        ensures answer { JudgesFirst result (cause_if (not (is_inside path_cmp self.now.paths path.now)) (record {})) }
        ensures lower { IfOk result (λ parts. parts.0 ≡ record { keys = self.now.keys; paths = lower self.now.paths path.now; times = self.now.times }) }
        ensures upper { IfOk result (λ parts. parts.1 ≡ record { keys = self.now.keys; paths = upper self.now.paths path.now; times = self.now.times }) }
    {
        if self.path_inside(path) {
            let lower = self.with_paths(self.path_start.copy()?, Some(path.copy()?));
            let upper = self.with_paths(path.copy()?, copy_end(&self.path_end)?);
            Ok((lower, upper))
        } else {
            Err(End::Refused(CutOutside))
        }
    }

    // Both parts of a cut at a time.
    fn cut_times(&self, time: u64) -> Result<(Box3, Box3), End<CutOutside>>
        ensures answer { JudgesFirst result (cause_if (not (is_inside nat_cmp self.now.times time)) (record {})) }
        ensures lower { IfOk result (λ parts. parts.0 ≡ record { keys = self.now.keys; paths = self.now.paths; times = lower self.now.times time }) }
        ensures upper { IfOk result (λ parts. parts.1 ≡ record { keys = self.now.keys; paths = self.now.paths; times = upper self.now.times time }) }
    {
        match self.times.cut(time) {
            None => Err(End::Refused(CutOutside)),
            Some((lower, upper)) => {
                let lower = self.with_times(lower)?;
                let upper = self.with_times(upper)?;
                Ok((lower, upper))
            }
        }
    }

    // The box with another range of keys.
    fn with_keys(&self, start: UserKey, end: Option<UserKey>) -> Result<Box3, NoMemory>
        requires { IsRising part_cmp (record { start = start; end = end }) }
        ensures { IfOk result (λ b. b ≡ record { keys = record { start = start; end = end }; paths = self.now.paths; times = self.now.times }) }
    {
        Ok(Box3 {
            key_start: start,
            key_end: end,
            path_start: self.path_start.copy()?,
            path_end: copy_end(&self.path_end)?,
            times: self.times,
        })
    }

    // The box with another range of paths.
    fn with_paths(&self, start: Path, end: Option<Path>) -> Box3
        requires { IsRising path_cmp (record { start = start; end = end }) }
        ensures { result ≡ record { keys = self.now.keys; paths = record { start = start; end = end }; times = self.now.times } }
    {
        Box3 {
            key_start: self.key_start,
            key_end: self.key_end,
            path_start: start,
            path_end: end,
            times: self.times,
        }
    }

    // The box with another range of times.
    fn with_times(&self, times: TimeRange) -> Result<Box3, NoMemory>
        requires { IsTimes times }
        ensures { IfOk result (λ b. b ≡ record { keys = self.now.keys; paths = self.now.paths; times = times }) }
    {
        Ok(Box3 {
            key_start: self.key_start,
            key_end: self.key_end,
            path_start: self.path_start.copy()?,
            path_end: copy_end(&self.path_end)?,
            times,
        })
    }

    // Whether the key is above the start and below the end.
    fn key_inside(&self, key: &UserKey) -> bool
        ensures { result ≡ is_inside part_cmp self.now.keys key.now }
    {
        self.key_start.cmp(key).is_lt() && key_before(key, &self.key_end)
    }

    // Whether the path is above the start and below the end.
    fn path_inside(&self, path: &Path) -> bool
        ensures { result ≡ is_inside path_cmp self.now.paths path.now }
    {
        self.path_start < *path && path_before(path, &self.path_end)
    }

    // Whether the key is in the range of keys.
    fn has_key(&self, key: &UserKey) -> bool
        ensures { result ≡ in_range part_cmp self.now.keys key.now }
    {
        self.key_start.cmp(key).is_le() && key_before(key, &self.key_end)
    }

    // Whether the path is in the range of paths.
    fn has_path(&self, path: &Path) -> bool
        ensures { result ≡ in_range path_cmp self.now.paths path.now }
    {
        self.path_start <= *path && path_before(path, &self.path_end)
    }
}

// Whether the key is below the end, where there is one.
fn key_before(key: &UserKey, end: &Option<UserKey>) -> bool
    ensures { result ≡ is_before_end part_cmp key.now end.now }
{
    match end {
        None => true,
        Some(end) => key.cmp(end).is_lt(),
    }
}

// Whether the path is below the end, where there is one.
fn path_before(path: &Path, end: &Option<Path>) -> bool
    ensures { result ≡ is_before_end path_cmp path.now end.now }
{
    match end {
        None => true,
        Some(end) => path < end,
    }
}

// An equal end.
fn copy_end(end: &Option<Path>) -> Result<Option<Path>, NoMemory>
    ensures { IfOk result (λ copy. copy ≡ end.now) }
{
    match end {
        None => Ok(None),
        Some(path) => Ok(Some(path.copy()?)),
    }
}

/// The box of an area: it includes an entry exactly where the area does. Its keys are all, or just the
/// area's; its paths are the extensions of the area's path; its times are the area's. The box takes its
/// memory where the area's path does.
pub fn box_of(_alloc: Global, area: &Area) -> Result<Box3, NoMemory>
    ensures ranges { IfOk result (λ b. b ≡ area_box area.now) }
    ensures same { IfOk result (λ b. HasTriplesOf b area.now) }
{
    area.known();
    let (key_start, key_end) = key_range(&area.subspace);
    let path_end = area.path.after_prefixed()?;
    Ok(Box3 {
        key_start,
        key_end,
        path_start: area.path.copy()?,
        path_end,
        times: area.times,
    })
}

// The least key of a subspace, or of any, and the first key that is too great, where there is one.
#[tactic(auto, using(crate::proofs::Boxing::key_rises))]
fn key_range(subspace: &Option<UserKey>) -> (UserKey, Option<UserKey>)
    ensures start { result.0 ≡ (key_range subspace.now).start }
    ensures end { result.1 ≡ (key_range subspace.now).end }
    ensures rising { IsRising part_cmp (record { start = result.0; end = result.1 }) }
{
    match subspace {
        None => (UserKey::least(), None),
        Some(key) => (*key, key.after()),
    }
}
