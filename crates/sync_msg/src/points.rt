//! Points at which a box is cut in parts.

ghost use Rattle.std.specs.Prelude.{◌≡◌, ◌<◌, ◌≤◌, [], ◌∷◌, ◌++◌, length, slice_get, Some, IsTrue, OnOk, OnErr, MatchOption};
ghost use Rattle.sync_msg.specs.CutPoints.{are_of_one};

use std::alloc::Global;
use std::marker::Model;
use willow_area::CutAt;
use willow_path::NoMemory;

/// The greatest number of points of a cut.
pub const MAX_POINTS: u8 = 3;

/// At most `MAX_POINTS` points of one dimension. A contract sees the list of the points.
#[derive(Drop)]
pub struct Points {
    points: Vec<CutAt>,
}

impl Model for Points {
    ghost use Rattle.std.specs.Prelude.{List};
    ghost use Rattle.willow_area.specs.declared.cut.CutAt.{CutAt};

    ghost Value = { List CutAt };

    ghost view = { λ p. p.points.items };

    ghost use Rattle.sync_msg.specs.CutPoints.{ArePoints};

    ghost invariant = { λ p. ArePoints p.points.items };
}

impl Points {
    /// No point.
    pub fn new(alloc: Global) -> Points
        ensures { result ≡ [] }
    {
        Points {
            points: Vec::new(alloc),
        }
    }

    /// Adds a point of the dimension of those that are there. Without memory they stay as they were.
    pub fn push(&mut self, point: CutAt) -> Result<(), NoMemory>
        requires few { length self.old < MAX_POINTS }
        requires one { IsTrue (are_of_one (self.old ++ point ∷ [])) }
        ensures added { OnOk result (self.new ≡ self.old ++ point ∷ []) }
        ensures kept { OnErr result (self.new ≡ self.old) }
    {
        self.points.push(point)?;
        Ok(())
    }

    /// The number of points. They are few, and of one dimension.
    pub fn len(&self) -> usize
        ensures length { result ≡ length self.now }
        ensures few { result ≤ MAX_POINTS }
        ensures one { IsTrue (are_of_one self.now) }
    {
        self.points.len()
    }

    /// The point at this place, counted from 0; None exactly from the length on.
    pub fn get(&self, i: usize) -> Option<&CutAt>
        ensures { MatchOption result (length self.now ≤ i) (λ point. slice_get self.now i ≡ Some point.now) }
    {
        self.points.get(i)
    }
}
