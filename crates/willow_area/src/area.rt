//! Areas.

ghost use Rattle.std.specs.Prelude.{◌≡◌, ◌↔◌, [], Some, None, IsTrue, IfOk, IfSome, MatchOption};
ghost use Rattle.willow_path.specs.Key.{IsKey};
ghost use Rattle.willow_area.specs.Area.{IsArea, in_area, includes_area, meet_area, fits_subspace, includes_subspace, meet_subspace, meet_path};
ghost use Rattle.willow_area.specs.AreaMeaning.{Includes, AreApart, HasTriplesOfBoth};

use crate::times::TimeRange;
use std::alloc::Global;
use willow_path::{NoMemory, Path, UserKey};

/// A part of a namespace: one subspace or any, the entries whose path begins with a path, and a range of
/// times.
#[derive(PartialEq, Eq, Drop)]
pub struct Area {
    /// The subspace, or None for any.
    pub subspace: Option<UserKey>,
    /// The path that the paths of the area begin with.
    pub path: Path,
    /// The times.
    pub times: TimeRange,
}

impl Area {
    /// The area that includes everything: any subspace, the empty path, all times.
    pub fn full(alloc: Global) -> Area
        ensures full { result ≡ record { subspace = None; path = []; times = record { start = 0; end = None } } }
        ensures area { IsArea result }
    {
        Area {
            subspace: None,
            path: Path::empty(alloc),
            times: TimeRange::all(),
        }
    }

    /// An equal area.
    pub fn copy(&self) -> Result<Area, NoMemory>
        ensures { IfOk result (λ area. area ≡ self.now) }
    {
        Ok(Area {
            subspace: self.subspace,
            path: self.path.copy()?,
            times: self.times,
        })
    }

    /// Whether the area includes an entry of this subspace, path and time.
    #[tactic(auto, unfolding(crate::specs::Area::in_area))]
    pub fn includes(&self, subspace: &UserKey, path: &Path, time: u64) -> bool
        ensures { result ≡ in_area self.now subspace.now path.now time }
    {
        fits_subspace(&self.subspace, subspace)
            && self.path.is_prefix_of(path)
            && self.times.includes(time)
    }

    /// Whether each triple of the other area is in this one.
    pub fn includes_area(&self, other: &Area) -> bool
        ensures fields { result ≡ includes_area self.now other.now }
        ensures triples { IsTrue result ↔ Includes self.now other.now }
    {
        self.known();
        other.known();
        self.includes_fields(other)
    }

    // Whether the area includes the other, field by field.
    #[tactic(auto, unfolding(crate::specs::Area::includes_area))]
    fn includes_fields(&self, other: &Area) -> bool
        ensures { result ≡ includes_area self.now other.now }
    {
        includes_subspace(&self.subspace, &other.subspace)
            && self.path.is_prefix_of(&other.path)
            && self.times.includes_range(&other.times)
    }

    /// The area of the triples that are in both areas; None exactly where no triple is in both.
    pub fn intersect(&self, other: &Area) -> Result<Option<Area>, NoMemory>
        ensures fields { IfOk result (λ both. both ≡ meet_area self.now other.now) }
        ensures triples { IfOk result (λ both. IfSome both (λ area. HasTriplesOfBoth area self.now other.now)) }
        ensures none { IfOk result (λ both. (both ≡ None) ↔ AreApart self.now other.now) }
    {
        self.known();
        other.known();
        self.meet(other)
    }

    // What both areas have in common, field by field.
    #[tactic(auto, unfolding(crate::specs::Area::meet_area))]
    fn meet(&self, other: &Area) -> Result<Option<Area>, NoMemory>
        ensures { IfOk result (λ area. area ≡ meet_area self.now other.now) }
    {
        let Some(subspace) = meet_subspace(&self.subspace, &other.subspace) else {
            return Ok(None);
        };
        let Some(path) = meet_path(&self.path, &other.path) else {
            return Ok(None);
        };
        let Some(times) = self.times.intersect(&other.times) else {
            return Ok(None);
        };
        let path = path.copy()?;
        Ok(Some(Area {
            subspace,
            path,
            times,
        }))
    }

    /// Does nothing: it is called for its clause, that each field is within its limits.
    pub fn known(&self)
        ensures { IsArea self.now }
    {
        known_subspace(&self.subspace);
        let _bytes = self.path.total();
        let _start = self.times.start();
    }
}

// What the subspace is: any, or a key.
fn known_subspace(own: &Option<UserKey>)
    ensures { IfSome own.now IsKey }
{
    if let Some(key) = own {
        let _bytes = key.to_bytes();
    }
}

// Whether the subspace is any, or just this one.
fn fits_subspace(own: &Option<UserKey>, subspace: &UserKey) -> bool
    ensures { result ≡ fits_subspace own.now subspace.now }
{
    match own {
        None => true,
        Some(key) => key == subspace,
    }
}

// Whether each subspace of the second is one of the first.
fn includes_subspace(own: &Option<UserKey>, other: &Option<UserKey>) -> bool
    ensures { result ≡ includes_subspace own.now other.now }
{
    match (own, other) {
        (None, _) => true,
        (Some(_), None) => false,
        (Some(key), Some(other)) => key == other,
    }
}

// The subspaces that both have; None where there are none.
fn meet_subspace(own: &Option<UserKey>, other: &Option<UserKey>) -> Option<Option<UserKey>>
    ensures { result ≡ meet_subspace own.now other.now }
{
    match (own, other) {
        (None, _) => Some(*other),
        (Some(_), None) => Some(*own),
        (Some(key), Some(same)) => { if key == same { Some(*own) } else { None } }
    }
}

// The longer of two paths, where one is a prefix of the other.
fn meet_path<'a>(own: &'a Path, other: &'a Path) -> Option<&'a Path>
    ensures { MatchOption result (meet_path own.now other.now ≡ None) (λ path. meet_path own.now other.now ≡ Some path.now) }
{
    if own.is_prefix_of(other) {
        Some(other)
    } else if other.is_prefix_of(own) {
        Some(own)
    } else {
        None
    }
}
