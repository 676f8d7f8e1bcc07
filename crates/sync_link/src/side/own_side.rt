//! The own side of a session, which takes in the bytes of the other in whatever pieces they come.

ghost use Rattle.std.specs.Prelude.{◌≡◌, [], map, IfSome, OnErr, OnOk};
ghost use Rattle.mc_cap.specs.Signature.{IsSignature};
ghost use Rattle.sync_hello.specs.HelloForm.{HasSpelling};
ghost use Rattle.session_rules.specs.Reading.{ending_of};
ghost use Rattle.sync_link.specs.Asking.{AsksWhere, SignsOnce};
ghost use Rattle.sync_link.specs.Progress.{CountsOn, GoesWell, begun, progress_in, standing_as};
ghost use Rattle.sync_link.specs.Signing.{OwesIn, SignsTo};
ghost use Rattle.sync_link.specs.Sound.{AreSound};
ghost use Rattle.sync_link.specs.Standing.{ReadsPiece};
ghost use Rattle.sync_link.specs.Talking.{SignsBy, SpeaksSome};
ghost use Rattle.sync_link.specs.Taking.{listed};

use crate::side::awaited::{Awaited, Cause, Exchange};
use crate::side::inbox::{Inbox, hear_on, shut};
use crate::side::lists::Lists;
use crate::side::participant::Participant;
use crate::side::standing::{Standing, Stop};
use crate::side::take_all::is_open;
use area_interest::Interest;
use block_store::Snapshot;
use scheme_core::{Signer, Verify};
use std::alloc::Global;
use std::marker::Model;
use sync_core::Stage;
use sync_hello::Hello;
use sync_msg::Role;
use willow_area::Area;
use willow_entry::Row;
use willow_path::NamespaceKey;

// A side of a session. A contract sees what it brings, how it stands, how many counted items it said and read, and the area that
// both may read, once an exchange has begun.
#[derive(Drop)]
pub(crate) struct OwnSide<R: Row, S: Verify> {
    participant: Participant<R, S>,
    inbox: Inbox<R>,
}

impl<R: Row, S: Verify> Model for OwnSide<R, S> {
    ghost use Rattle.sync_link.specs.Progress.{State};
    ghost use Rattle.sync_link.specs.Held.{IsHeld, state_of};

    ghost Value = { State };

    ghost view = { λ s. state_of R.value s.participant s.inbox.due s.inbox.at s.inbox.held.items };

    ghost invariant = { λ s. IsHeld S.rules R.value s.participant s.inbox.due s.inbox.at s.inbox.held.items };
}

impl<R: Row, S: Verify> OwnSide<R, S> {
    // A side that read nothing yet.
    pub(crate) fn begin(
        alloc: Global,
        scheme: S,
        namespace: NamespaceKey,
        role: Role,
        hello: Hello,
        interest: Interest,
        snapshot: Snapshot<R>,
    ) -> OwnSide<R, S>
        requires own { HasSpelling hello }
        requires speaks { SpeaksSome hello }
        requires rows { AreSound (map R.value snapshot) }
        ensures { result ≡ begun namespace role hello interest (map R.value snapshot) }
    {
        OwnSide {
            participant: Participant {
                alloc,
                scheme,
                namespace,
                role,
                hello,
                interest,
                signature: None,
                snapshot,
            },
            inbox: Inbox {
                due: Awaited::Hello,
                at: 0,
                held: Vec::new(alloc),
            },
        }
    }

    // Takes a piece of the other side's bytes in: appends what is said to it to `out`, and the rows that come to `lists`,
    // with the lists that are announced. The signer is asked once at most, only where the side is not signed yet, and only for a
    // proof that is due to the piece. `SignFault` comes only where it failed then or had nothing left. After an error `out` and
    // `lists` are empty, and the side reads no more: it stands as behind what is no message.
    #[tactic(auto, using(crate::proofs::HearingOn::closed_reads_on, crate::proofs::HearingOn::held_shut))]
    pub(crate) fn take_in<K: Signer>(
        &mut self,
        signer: &mut K,
        piece: &[u8],
        out: &mut Vec<u8>,
        lists: &mut Lists,
    ) -> Result<(), Stop>
        ensures reads_piece { OnOk result (ReadsPiece (progress_in S.rules self.old).side (progress_in S.rules self.new).side piece.now out.old.items out.new.items (listed lists.old) (listed lists.new)) }
        ensures counts { OnOk result (CountsOn (progress_in S.rules self.old) (progress_in S.rules self.new) piece.now) }
        ensures signs { OnOk result (SignsBy (K.gives signer.old) self.old.role self.old.hello self.old.signature self.new.signature) }
        ensures greets { OnOk result (SignsTo (K.gives signer.old) (progress_in S.rules self.old).side (progress_in S.rules self.new).side piece.now) }
        ensures signing { SignsOnce K.gives K.asks K.left K.faults self.old.signature self.new.signature signer.old signer.new result }
        ensures due { AsksWhere self.old.signature self.new.signature signer.old signer.new (OwesIn (progress_in S.rules self.old).side piece.now) }
        ensures err_out { OnErr result (out.new.items ≡ []) }
        ensures err_rows { OnErr result (lists.new.rows.items ≡ []) }
        ensures err_stands { OnErr result (GoesWell self.new.stand → ⊥) }
    {
        if !is_open(&self.inbox.due) {
            return Ok(());
        }
        match hear_on(
            &mut self.participant,
            &mut self.inbox,
            signer,
            piece,
            out,
            lists,
        ) {
            Ok(()) => Ok(()),
            Err(stop) => {
                shut(&mut self.inbox);
                out.clear();
                lists.clear();
                Err(stop)
            }
        }
    }

    // How the session stands.
    pub(crate) fn standing(&self) -> Standing
        ensures { result ≡ standing_as (ending_of self.now.stand) }
    {
        match &self.inbox.due {
            Awaited::Hello | Awaited::Proof(_) => Standing::More,
            Awaited::Items(exchange) => match exchange.core.stage() {
                Stage::Done => Standing::Done,
                Stage::Reading | Stage::Writing | Stage::Refused => Standing::More,
            },
            Awaited::Nothing(Cause::Bad) => Standing::BadMessage { at: self.inbox.at },
            Awaited::Nothing(Cause::Hello(cause)) => Standing::Hello(*cause),
            Awaited::Nothing(Cause::Core(cause)) => Standing::Core(*cause),
        }
    }

    // Does nothing: it is called for its clause, that what was made as its signature is one in form.
    pub(crate) fn known_signature(&self)
        ensures { IfSome self.now.signature IsSignature }
    {
        match &self.participant.signature {
            None => {}
            Some(signature) => {
                let _bytes = signature.as_slice();
            }
        }
    }

    // The area that both sides may read, if there is one and the exchange has begun.
    pub(crate) fn into_area(self) -> Option<Area>
        ensures { result ≡ self.area }
    {
        let OwnSide {
            participant: _,
            inbox,
        } = self;
        let Inbox {
            due,
            at: _,
            held: _,
        } = inbox;
        match due {
            Awaited::Items(exchange) => {
                let Exchange {
                    core: _,
                    reader: _,
                    area,
                } = exchange;
                area
            }
            Awaited::Hello | Awaited::Proof(_) | Awaited::Nothing(_) => None,
        }
    }

    // How many counted items it said, and how many it read: First, Agree, Split, Parts, Entries and Rest. Of a
    // session that was refused none are told.
    pub(crate) fn items(&self) -> (u32, u32)
        ensures sent { result.0 ≡ self.now.sent }
        ensures read { result.1 ≡ self.now.read }
    {
        match &self.inbox.due {
            Awaited::Items(exchange) => exchange.core.items(),
            Awaited::Hello | Awaited::Proof(_) | Awaited::Nothing(_) => (0, 0),
        }
    }
}
