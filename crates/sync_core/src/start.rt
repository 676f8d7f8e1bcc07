//! What a side begins with.

ghost use Rattle.std.specs.Prelude.{◌≡◌, map, IfOk};
ghost use Rattle.sync_core.specs.Place.{first_doing};
ghost use Rattle.sync_core.specs.Held.{IsReady, doing_of};

use crate::answer::Turn;
use crate::ask::Owed;
use crate::out_item::OutItem;
use crate::print::print_of;
use crate::work::{Ear, Phase, Work};
use block_store::Snapshot;
use std::alloc::Global;
use std::collections::VecDeque;
use sync_msg::Role;
use willow_area::Box3;
use willow_entry::Row;
use willow_path::NoMemory;

// What a side begins with in a session of the version, by the box of the area that both peers read.
pub(crate) fn first_work<R: Row>(
    alloc: Global,
    version: u8,
    role: Role,
    snapshot: &Snapshot<R>,
    area: &Option<Box3>,
) -> Result<Work, NoMemory>
    ensures doing { IfOk result (λ work. doing_of (map R.value snapshot.now) work ≡ first_doing version role area.now (map R.value snapshot.now)) }
    ensures ready { IfOk result (λ work. IsReady (map R.value snapshot.now) work) }
{
    let mut turn = Turn::new(alloc);
    match (role, area) {
        (Role::Answerer, _) => Ok(work_of(alloc, Phase::Beginning, turn)),
        (Role::Caller, None) => {
            turn.items.push(OutItem::Bye)?;
            Ok(work_of(alloc, Phase::Saying, turn))
        }
        (Role::Caller, Some(area)) => {
            let print = print_of(snapshot, &None, area);
            turn.items.push(OutItem::First { print })?;
            turn.items.push(OutItem::EndTurn)?;
            turn.opens.push(Owed::Print {
                area: area.copy()?,
                print,
            })?;
            Ok(work_of(alloc, Phase::Saying, turn))
        }
    }
}

// A turn to say, and nothing heard.
fn work_of(alloc: Global, phase: Phase, turn: Turn) -> Work
    ensures phase { result.phase ≡ phase }
    ensures items { result.items.items ≡ turn.items.items }
    ensures owed { result.ear.owed.items ≡ turn.opens.items }
{
    Work {
        phase,
        items: VecDeque::from_vec(turn.items),
        ear: Ear {
            owed: VecDeque::from_vec(turn.opens),
            opens: Vec::new(alloc),
            due: None,
        },
    }
}
