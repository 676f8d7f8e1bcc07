//! All whole messages of a session, taken from the front of the bytes.

ghost use Rattle.std.specs.Prelude.{◌+◌, ◌<◌, ◌^◌, ℕ, [], IsTrue, drop, length, map, not, IfOk, OnOk};
ghost use Rattle.cap_codec.specs.Rows.{row_of};
ghost use Rattle.sync_hello.specs.HelloForm.{HasSpelling};
ghost use Rattle.sync_link.specs.Asking.{AsksWhere, SignsOnce};
ghost use Rattle.sync_link.specs.Sound.{AreSound};
ghost use Rattle.sync_link.specs.Signing.{OwesIn, SignsTo};
ghost use Rattle.sync_link.specs.Talking.{Keeps, SignsBy, SpeaksSome};
ghost use Rattle.sync_link.specs.Taking.{Fits, IsOpen, read_by, waiting_side};
ghost use Rattle.sync_link.specs.TakingAll.{TakesAll};

use crate::side::awaited::Awaited;
use crate::side::lists::Lists;
use crate::side::participant::Participant;
use crate::side::standing::Stop;
use crate::side::take::take;
use scheme_core::{Signer, Verify};
use sync_core::Stage;
use willow_entry::Row;

// Takes all whole messages from the front of the bytes, up to a part of one, to what is none, or to the end of the
// session. Answers how many bytes they have.
pub(crate) fn take_all<R: Row, S: Verify, K: Signer>(
    participant: &mut Participant<R, S>,
    due: &mut Awaited<R>,
    signer: &mut K,
    bytes: &[u8],
    out: &mut Vec<u8>,
    lists: &mut Lists,
) -> Result<usize, Stop>
    requires own { HasSpelling participant.old.hello }
    requires speaks { SpeaksSome participant.old.hello }
    requires rows { AreSound (map R.value participant.old.snapshot) }
    requires fits { Fits participant.old.role participant.old.signature due.old }
    requires few { read_by due.old + length bytes.now < 2 ^ 64 }
    ensures keeps { Keeps participant.old participant.new }
    ensures takes { IfOk result (λ taken. TakesAll S.rules R.value participant.old participant.new due.old due.new bytes.now taken
        out.old.items out.new.items (map row_of lists.old.rows.items) (map row_of lists.new.rows.items)) }
    ensures greets { IfOk result (λ taken. (at : ℕ) → SignsTo (K.gives signer.old) (waiting_side S.rules R.value participant.old due.old at [])
        (waiting_side S.rules R.value participant.new due.new (at + taken) (drop taken bytes.now)) bytes.now) }
    ensures signs { OnOk result (SignsBy (K.gives signer.old) participant.old.role participant.old.hello participant.old.signature participant.new.signature) }
    ensures signing { SignsOnce K.gives K.asks K.left K.faults participant.old.signature participant.new.signature signer.old signer.new result }
    ensures due { AsksWhere participant.old.signature participant.new.signature signer.old signer.new ((at : ℕ) → OwesIn (waiting_side S.rules R.value participant.old due.old at []) bytes.now) }
{
    let mut taken = 0;
    while is_open(due) {
        match take(participant, due, signer, &bytes[taken..], out, lists) {
            Ok(Some(more)) => taken += more,
            Ok(None) => return Ok(taken),
            Err(stop) => return Err(stop),
        }
    }
    Ok(taken)
}

// Whether a message is due.
pub(crate) fn is_open<R: Row>(due: &Awaited<R>) -> bool
    ensures open { IsTrue result → IsOpen due.now }
    ensures closed { IsTrue (not result) → IsOpen due.now → ⊥ }
{
    match due {
        Awaited::Hello | Awaited::Proof(_) => true,
        Awaited::Items(exchange) => exchange.core.stage() == Stage::Reading,
        Awaited::Nothing(_) => false,
    }
}
