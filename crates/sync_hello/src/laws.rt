//! What holds of hellos, their readers and their refusals. These functions do nothing: each is called, if at all, for
//! its clauses.

ghost use Rattle.std.specs.Prelude.{◌≡◌, ◌↔◌, ℕ, List, None};
ghost use Rattle.spelling.specs.Form.{IsForm};
ghost use Rattle.spelling.specs.Reader.{IsReader};
ghost use Rattle.scheme_core.specs.Rules.{Rules};
ghost use Rattle.sync_hello.specs.declared.hello.Hello.{Hello};
ghost use Rattle.sync_hello.specs.HelloForm.{draft_spelling, hello_spelling, IsDraft, IsHello};
ghost use Rattle.sync_hello.specs.HelloReading.{draft_at};
ghost use Rattle.sync_hello.specs.HelloSteps.{AreNeverBoth, HaveOneHello};
ghost use Rattle.sync_hello.specs.Checked.{hello_refusal, Passes};
ghost use Rattle.sync_hello.specs.Common.{AsksWithinGrant, BothGrantCommon};

use crate::version::HIGHEST_VERSION;
use willow_entry::MAX_FRAME;

/// The greatest number of bytes of a capability in a hello, and the highest version that is spoken.
pub fn limits()
    ensures capability { MAX_FRAME ≡ 131072 }
    ensures version { HIGHEST_VERSION ≡ 2 }
{}

/// The reader of hellos, before their capability is read, goes by the spellings alone: a value is whole exactly where
/// its spelling stands in front, the bytes are a part exactly where they begin a spelling and more is due, and wrong
/// exactly where none begins so.
#[tactic(auto, using(crate::proofs::HelloReads::draft_reader))]
pub fn readers()
    ensures draft { IsReader draft_at draft_spelling IsDraft }
{}

/// A hello has one spelling, and no spelling of one begins another.
#[tactic(auto, using(crate::proofs::HelloReads::hello_form))]
pub fn one_spelling()
    ensures { IsForm hello_spelling IsHello }
{}

/// To bytes there is one answer: at most one hello stands in front of them, and where one does, they are no proper
/// beginning of one.
pub fn one_answer()
    ensures one { HaveOneHello }
    ensures never_both { AreNeverBoth }
{}

/// Nothing refuses a hello exactly where the five conditions hold.
#[tactic(auto, using(crate::proofs::Meaning::passes_means))]
pub fn passed_exactly()
    ensures means { (rules : Rules) (n : List ℕ) (h : Hello) → (hello_refusal rules n h ≡ None) ↔ Passes rules n h }
{}

/// A hello that is not refused asks for nothing that its capability does not grant. So of two that are not refused,
/// both capabilities grant the common area.
pub fn granted()
    ensures ask { AsksWithinGrant }
    ensures common { BothGrantCommon }
{}
