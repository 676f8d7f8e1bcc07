//! A turn that one side says and the other hears.

ghost use Rattle.std.specs.Prelude.{◌≡◌, ◌<◌, map, IfOk, OnOk};
ghost use Rattle.sync_core.specs.Runs.{left_to_say};
ghost use Rattle.sync_pair.specs.Passing.{CanPass, IsWriting, PassesTurn, turn_end};

use crate::peer::Peer;
use std::alloc::Global;
use sync_msg::encode_item;
use willow_entry::Row;
use willow_path::NoMemory;

// Passes the turn of the side that is to write on to the other, and tells its bytes.
pub(crate) fn next_turn<R: Row>(
    alloc: Global,
    left: &mut Peer<R>,
    right: &mut Peer<R>,
) -> Result<Vec<u8>, NoMemory>
    requires left { IsWriting left.old.side → CanPass left.old.side right.old.side }
    requires right { (IsWriting left.old.side → ⊥) → CanPass right.old.side left.old.side }
    ensures left { IsWriting left.old.side → IfOk result (λ bytes. PassesTurn left.old.side right.old.side (map R.value right.old.got.items) left.new.side right.new.side bytes.items (map R.value right.new.got.items)) }
    ensures left_got { IsWriting left.old.side → left.new.got ≡ left.old.got }
    ensures right { (IsWriting left.old.side → ⊥) → IfOk result (λ bytes. PassesTurn right.old.side left.old.side (map R.value left.old.got.items) right.new.side left.new.side bytes.items (map R.value left.new.got.items)) }
    ensures right_got { (IsWriting left.old.side → ⊥) → right.new.got ≡ right.old.got }
{
    if left.is_writing() {
        pass_turn(alloc, left, right)
    } else {
        pass_turn(alloc, right, left)
    }
}

// Passes the turn of a side on to the other, and tells its bytes.
fn pass_turn<R: Row>(
    alloc: Global,
    from: &mut Peer<R>,
    to: &mut Peer<R>,
) -> Result<Vec<u8>, NoMemory>
    requires { CanPass from.old.side to.old.side }
    ensures passed { IfOk result (λ bytes. PassesTurn from.old.side to.old.side (map R.value to.old.got.items) from.new.side to.new.side bytes.items (map R.value to.new.got.items)) }
    ensures got { from.new.got ≡ from.old.got }
{
    let mut bytes = Vec::new(alloc);
    while from.is_writing() {
        pass_item(from, to, &mut bytes)?;
    }
    Ok(bytes)
}

// Passes the next item on, and appends its bytes.
fn pass_item<R: Row>(
    from: &mut Peer<R>,
    to: &mut Peer<R>,
    bytes: &mut Vec<u8>,
) -> Result<(), NoMemory>
    requires writes { IsWriting from.old.side }
    requires passes { CanPass from.old.side to.old.side }
    ensures end { OnOk result (turn_end from.new.side to.new.side bytes.new.items (map R.value to.new.got.items) ≡ turn_end from.old.side to.old.side bytes.old.items (map R.value to.old.got.items)) }
    ensures rest { OnOk result (CanPass from.new.side to.new.side) }
    ensures fewer { OnOk result (left_to_say from.new.side.doing < left_to_say from.old.side.doing) }
    ensures got { from.new.got ≡ from.old.got }
{
    let item = from.say()?;
    encode_item(&item, bytes)?;
    to.hear(item)
}
