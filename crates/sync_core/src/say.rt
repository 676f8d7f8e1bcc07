//! What a side says next.

ghost use Rattle.std.specs.Prelude.{◌≡◌, ℕ, List, [], length, map, option_map, Some};
ghost use Rattle.willow_entry.specs.Row.{RowValue};
ghost use Rattle.sync_core.specs.Steps.{next_said, waiting};
ghost use Rattle.sync_core.specs.Held.{AreNamed, CanSay, HasNext, IsReady, doing_of, item_at, owed_value};
ghost use Rattle.sync_core.specs.declared.work.Work.{Work};

use crate::out_item::OutItem;
use crate::work::{Ear, Phase, Work};

// Says the next item.
pub(crate) fn say(work: &mut Work) -> OutItem
    requires { CanSay work.old.phase (length work.old.items.items) }
    ensures item { (rows : List RowValue) → AreNamed rows work.old.items.items → item_at rows result ≡ option_map (λ step. step.0) (next_said (doing_of rows work.old)) }
    ensures doing { (rows : List RowValue) → AreNamed rows work.old.items.items → option_map (λ step. step.1) (next_said (doing_of rows work.old)) ≡ Some (doing_of rows work.new) }
    ensures ready { (rows : List RowValue) → AreNamed rows work.old.items.items → IsReady rows work.new }
{
    match work.phase {
        Phase::Saying => match work.items.pop_front() {
            None => unreachable!(),
            Some(item) => {
                if work.items.is_empty() {
                    work.phase = wait(&mut work.ear);
                }
                item
            }
        },
        Phase::Replying => {
            work.phase = Phase::Finished;
            OutItem::Bye
        }
        _ => unreachable!(),
    }
}

// The turn is said: what it opened is the peer's to answer, or the peer's farewell is due.
fn wait(ear: &mut Ear) -> Phase
    ensures doing { (rows : List RowValue) (work : Work) → doing_of rows (record work { phase = result; ear = ear.new }) ≡ waiting (map (owed_value rows) ear.old.owed.items) }
    ensures silent { (left : ℕ) → HasNext result left }
{
    ear.opens.clear();
    ear.due = None;
    if ear.owed.is_empty() {
        Phase::Parting
    } else {
        Phase::Hearing
    }
}
