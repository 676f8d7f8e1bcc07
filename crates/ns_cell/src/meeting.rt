//! One pass learns what another has seen.

ghost use Rattle.std.specs.Prelude.{◌≡◌, ◌<◌, ◌^◌};
ghost use mathlib.Core.List.{IsPrefix};
ghost use Rattle.log_rule.specs.Steps.{longer};
ghost use Rattle.ns_cell.specs.Passes.{IsPass, IsLater};

use crate::board::{Lend, Look, SERVED, TakeIn, Top};
use crate::pass::Pass;
use willow_entry::Row;

// The one pass sees what the other has seen, where that is more.
#[tactic(auto, using(crate::proofs::Turned::prefix_same))]
pub(crate) fn learn_from<R: Row>(top: &Top<R>, one: &mut Pass<R>, other: &mut Pass<R>)
    requires table { (one.old.cell.table ≡ top.now.table_id) × (other.old.cell.table ≡ top.now.table_id) × (top.now.table_id.words ≡ 2) }
    requires few { top.now.key.passes < 2 ^ 64 }
    requires cell { other.old.cell ≡ one.old.cell }
    ensures later { IsLater one.old one.new }
    ensures learned { IsPrefix other.old.seen one.new.seen }
    ensures seen { one.new.seen ≡ longer one.old.seen other.old.seen }
    ensures own { one.new.own ≡ one.old.own }
    ensures turns { one.new.turns ≡ one.old.turns }
    ensures pass { IsPass R.value one.new }
    ensures other { other.new ≡ other.old }
{
    let lent = top.split_seat::<Lend>(&mut other.seat);
    top.join_seat::<TakeIn>(&mut one.seat, lent);
    top.load::<Look>(&mut one.seat, SERVED);
    one.seen = one.seen.max(other.seen);
}
