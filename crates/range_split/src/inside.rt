//! Whether a box can be cut at points.

ghost use Rattle.std.specs.Prelude.{◌≡◌, [], ◌∷◌, is_some};
ghost use Rattle.std.specs.Ordering.{nat_cmp};
ghost use Rattle.willow_path.specs.Path.{part_cmp, path_cmp};
ghost use Rattle.willow_area.specs.Range.{is_inside};
ghost use Rattle.willow_area.specs.Cuts.{can_cut};
ghost use Rattle.range_split.specs.Parts.{can_cut_at, cut_all, is_below_point};

use sync_msg::Points;
use willow_area::{Box3, CutAt};
use willow_path::{Path, UserKey};

// Whether the points rise, and the box can be cut at each of them.
pub(crate) fn can_cut_at(area: &Box3, points: &Points) -> bool
    ensures test { result ≡ can_cut_at area.now points.now }
    ensures parts { result ≡ is_some (cut_all area.now points.now) }
{
    let _few = points.len();
    match (points.get(0), points.get(1), points.get(2)) {
        (None, _, _) => true,
        (Some(one), None, _) => is_inside(area, one),
        (Some(one), Some(two), None) => can_cut_at_two(area, one, two),
        (Some(one), Some(two), Some(three)) => can_cut_at_three(area, one, two, three),
    }
}

// The same of two points.
fn can_cut_at_two(area: &Box3, one: &CutAt, two: &CutAt) -> bool
    ensures { result ≡ can_cut_at area.now (one.now ∷ two.now ∷ []) }
{
    is_below(one, two) && is_inside(area, one) && is_inside(area, two)
}

// The same of three points.
fn can_cut_at_three(area: &Box3, one: &CutAt, two: &CutAt, three: &CutAt) -> bool
    ensures { result ≡ can_cut_at area.now (one.now ∷ two.now ∷ three.now ∷ []) }
{
    is_below(one, two)
        && is_below(two, three)
        && is_inside(area, one)
        && is_inside(area, two)
        && is_inside(area, three)
}

// Whether the first point is below the other, in one dimension.
fn is_below(at: &CutAt, other: &CutAt) -> bool
    ensures { result ≡ is_below_point at.now other.now }
{
    match (at, other) {
        (CutAt::Subspace(key), CutAt::Subspace(other)) => key.cmp(other).is_lt(),
        (CutAt::Path(path), CutAt::Path(other)) => path.cmp(other).is_lt(),
        (CutAt::Time(time), CutAt::Time(other)) => time < other,
        _ => false,
    }
}

// Whether the box can be cut at the point.
#[tactic(auto, unfolding(willow_area::specs::Cuts::can_cut))]
fn is_inside(area: &Box3, at: &CutAt) -> bool
    ensures { result ≡ can_cut area.now at.now }
{
    match at {
        CutAt::Subspace(key) => has_key_inside(area, key),
        CutAt::Path(path) => has_path_inside(area, path),
        CutAt::Time(time) => has_time_inside(area, *time),
    }
}

// Whether the key is above the least one of the box, and below the first that is too great.
fn has_key_inside(area: &Box3, key: &UserKey) -> bool
    ensures { result ≡ is_inside part_cmp area.now.keys key.now }
{
    let above = area.key_start().cmp(key).is_lt();
    match area.key_end() {
        None => above,
        Some(end) => above && key.cmp(end).is_lt(),
    }
}

// Whether the path is above the least one of the box, and below the first that is too great.
fn has_path_inside(area: &Box3, path: &Path) -> bool
    ensures { result ≡ is_inside path_cmp area.now.paths path.now }
{
    let above = area.path_start() < path;
    match area.path_end() {
        None => above,
        Some(end) => above && path < end,
    }
}

// Whether the time is above the first one of the box, and below the first that is too late.
fn has_time_inside(area: &Box3, time: u64) -> bool
    ensures { result ≡ is_inside nat_cmp area.now.times time }
{
    let times = area.times();
    let above = times.start() < time;
    match times.end() {
        None => above,
        Some(end) => above && time < end,
    }
}
