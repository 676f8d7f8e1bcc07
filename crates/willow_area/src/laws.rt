//! What the definitions mean, and what follows from them. These functions do nothing: each is called,
//! if at all, for its clauses.

ghost use Rattle.std.specs.Prelude.{◌≡◌, ◌↔◌, IsTrue, Some, None};
ghost use Rattle.spelling.specs.Form.{IsForm};
ghost use Rattle.spelling.specs.Reader.{IsReader};
ghost use Rattle.willow_area.specs.Area.{IsArea, includes_area, meet_area};
ghost use Rattle.willow_area.specs.AreaMeaning.{Includes, AreApart, HasTriplesOfBoth};
ghost use Rattle.willow_area.specs.AreaBox.{HasTriplesOf, area_box};
ghost use Rattle.willow_area.specs.AreaSpelling.{area_at, area_spelling};
ghost use Rattle.willow_area.specs.Boxes.{Ranges};
ghost use Rattle.willow_area.specs.Cuts.{can_cut, lower_part, upper_part, HasWhatIsBelow, HasTheRest};
ghost use Rattle.willow_area.specs.declared.area.Area.{Area};
ghost use Rattle.willow_area.specs.declared.cut.CutAt.{CutAt};

/// An area includes another exactly where each triple of the other is in it. A triple is a key, a path
/// within the limits and a time of 64 bits.
pub fn inclusion()
    ensures means { (area other : Area) → IsArea area → IsArea other → IsTrue (includes_area area other) ↔ Includes area other }
{}

/// The intersection of two areas has exactly the triples that both have, and there is none exactly
/// where no triple is in both.
pub fn intersection()
    ensures some { (area other both : Area) → meet_area area other ≡ Some both → HasTriplesOfBoth both area other }
    ensures none { (area other : Area) → IsArea area → IsArea other → (meet_area area other ≡ None) ↔ AreApart area other }
{}

/// An area within the limits has one spelling, and no spelling of an area begins another.
#[tactic(auto, using(crate::proofs::AreaReads::area_form))]
pub fn one_spelling()
    ensures area { IsForm area_spelling IsArea }
{}

/// The reader of areas goes by the spellings alone: an area is whole exactly where its spelling stands in front, the
/// bytes are a part exactly where they begin a spelling and more is due, and wrong exactly where none begins so.
#[tactic(auto, using(crate::proofs::AreaReads::area_reader))]
pub fn readers()
    ensures area { IsReader area_at area_spelling IsArea }
{}

/// The two parts of a cut have the triples of the box: the lower part those below the point, the upper part
/// the rest.
#[tactic(auto, using(crate::proofs::Cutting::lower_part_has, crate::proofs::Cutting::upper_part_has))]
pub fn cuts()
    ensures lower { (ranges : Ranges) (at : CutAt) → IsTrue (can_cut ranges at) → HasWhatIsBelow (lower_part ranges at) ranges at }
    ensures upper { (ranges : Ranges) (at : CutAt) → IsTrue (can_cut ranges at) → HasTheRest (upper_part ranges at) ranges at }
{}

/// The box of an area includes a triple exactly where the area does.
#[tactic(auto, using(crate::proofs::Boxing::area_box_means))]
pub fn boxes()
    ensures same { (area : Area) → IsArea area → HasTriplesOf (area_box area) area }
{}
