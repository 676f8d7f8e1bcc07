//! The parts of a box that is cut at several points.

ghost use Rattle.std.specs.Prelude.{◌≡◌, ◌<◌, not, length, slice_get, IfOk, IsSome, IsTrue, Some};
ghost use Rattle.spelling.specs.Answers.{JudgesFirst, cause_if};
ghost use Rattle.willow_area.specs.Cuts.{can_cut, lower_part, upper_part};
ghost use Rattle.range_split.specs.Parts.{can_cut_at, cut_all};

use crate::inside::can_cut_at;
use std::alloc::Global;
use sync_msg::Points;
use willow_area::{Box3, CutAt, CutOutside};
use willow_path::{End, NoMemory};

/// The parts of a box that is cut at the points, from the lowest up. It is refused exactly where the points do not rise, or
/// the box cannot be cut at one of them; that is judged first, and takes no memory.
pub fn box_parts(alloc: Global, area: &Box3, points: &Points) -> Result<Vec<Box3>, End<CutOutside>>
    ensures answer { JudgesFirst result (cause_if (not (can_cut_at area.now points.now)) (record {})) }
    ensures parts { IfOk result (λ parts. cut_all area.now points.now ≡ Some parts.items) }
{
    if !can_cut_at(area, points) {
        return Err(End::Refused(CutOutside));
    }
    let parts = cut_parts(alloc, area, points)?;
    Ok(parts)
}

// The parts of a box that can be cut at the points.
fn cut_parts(alloc: Global, area: &Box3, points: &Points) -> Result<Vec<Box3>, NoMemory>
    requires { IsSome (cut_all area.now points.now) }
    ensures { IfOk result (λ parts. cut_all area.now points.now ≡ Some parts.items) }
{
    let mut parts = Vec::new(alloc);
    let mut rest = area.copy()?;
    for i in 0..points.len() {
        let (below, above) = cut(&rest, point_at(points, i))?;
        parts.push(below)?;
        rest = above;
    }
    parts.push(rest)?;
    Ok(parts)
}

// The point at the place.
pub(crate) fn point_at(points: &Points, i: usize) -> &CutAt
    requires { i < length points.now }
    ensures { slice_get points.now i ≡ Some result.now }
{
    match points.get(i) {
        None => unreachable!(),
        Some(point) => point,
    }
}

// Both parts of a box that can be cut at the point.
fn cut(area: &Box3, at: &CutAt) -> Result<(Box3, Box3), NoMemory>
    requires { IsTrue (can_cut area.now at.now) }
    ensures lower { IfOk result (λ parts. parts.0 ≡ lower_part area.now at.now) }
    ensures upper { IfOk result (λ parts. parts.1 ≡ upper_part area.now at.now) }
{
    match area.cut(at) {
        Ok(parts) => Ok(parts),
        Err(End::Refused(_)) => unreachable!(),
        Err(End::NoMemory) => Err(NoMemory),
    }
}
