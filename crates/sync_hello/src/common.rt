//! The area that both sides of an exchange may read.

ghost use Rattle.std.specs.Prelude.{◌≡◌, ◌↔◌, None, IfOk, IfSome};
ghost use Rattle.willow_area.specs.AreaMeaning.{AreApart, HasTriplesOfBoth};
ghost use Rattle.sync_hello.specs.Common.{common_area};

use crate::hello::Hello;
use spelling::NoMemory;
use willow_area::Area;

/// The intersection of what two hellos ask for: the area of the triples that are in both asks; None exactly where no
/// triple is in both. Where neither hello is refused, both capabilities grant all of it.
#[tactic(auto, unfolding(crate::specs::Common::common_area))]
pub fn common_area(one: &Hello, other: &Hello) -> Result<Option<Area>, NoMemory>
    ensures fields { IfOk result (λ both. both ≡ common_area one.now other.now) }
    ensures triples { IfOk result (λ both. IfSome both (λ area. HasTriplesOfBoth area one.now.ask other.now.ask)) }
    ensures none { IfOk result (λ both. (both ≡ None) ↔ AreApart one.now.ask other.now.ask) }
{
    one.ask.intersect(&other.ask)
}
