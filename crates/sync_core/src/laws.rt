//! What holds of the rules of stores. These functions do nothing: each is called, if at all, for its clauses.

ghost use Rattle.std.specs.Prelude.{◌≡◌, ℕ, ◌≤◌, Bool, List, [], length, count_by, All, Contains, Option, None, Some, Ok, IsErr};
ghost use Rattle.std.specs.List.{IsDistinct};
ghost use Rattle.std.specs.List.Sorted.{IsStrictlySortedBy};
ghost use Rattle.willow_area.specs.Boxes.{Ranges};
ghost use Rattle.willow_entry.specs.Frame.{HasFrame};
ghost use Rattle.willow_entry.specs.Row.{RowValue, AreLive, inner_place_cmp, same_row};
ghost use Rattle.block_store.specs.BoxKinds.{IsOfOneNamespace};
ghost use Rattle.block_store.specs.InBox.{rows_in};
ghost use Rattle.exchange_rules.specs.AnyPeer.{heard, first_opens};
ghost use Rattle.exchange_rules.specs.Answer.{turn};
ghost use Rattle.exchange_rules.specs.Exchange.{exchange, first_turn};
ghost use Rattle.exchange_rules.specs.Items.{bye};
ghost use Rattle.exchange_rules.specs.Premises.{IsDeciding, HasDisjointParts, CanCut, CanSend};
ghost use Rattle.sync_msg.specs.Items.{ItemValue, HasSpelling};
ghost use Rattle.sync_msg.specs.declared.role.Role.{Role};
ghost use Rattle.sync_msg.specs.declared.role.Role.TheVariants.{Caller, Answerer};
ghost use Rattle.sync_core.specs.SyncRules.{sync_rules};
ghost use Rattle.sync_core.specs.Flat.{AskValue, TurnValue, IsToldTurn, turn_items};
ghost use Rattle.sync_core.specs.Place.{Place, first_place, saying};
ghost use Rattle.sync_core.specs.Runs.{HasRoom, HearsAnswers, HearsFirst, HearsLast, SayTurns, hears, place_after, place_at_end, place_behind, says};
ghost use Rattle.sync_core.specs.Talks.{rows_said};

use crate::stage::SNAPSHOT_MAX;

/// The rules of stores meet in each version what the laws of an exchange ask: rows and fingerprints are told apart, the parts of a cut
/// are apart, and a side whose rows rise by subspace and path, as the rows of one namespace do, cuts each box so that
/// each part has rows of it, and sends only what a peer may be sent.
#[tactic(auto, using(crate::proofs::Lawful::deciding, crate::proofs::Lawful::disjoint, crate::proofs::Lawful::can_cut_rows, crate::proofs::Lawful::can_send))]
pub fn rules_are_lawful()
    ensures deciding { (version : ℕ) → IsDeciding (sync_rules version) }
    ensures disjoint { (version : ℕ) → HasDisjointParts (sync_rules version) }
    ensures cuts { (version : ℕ) (rows : List RowValue) → IsStrictlySortedBy inner_place_cmp rows → CanCut (sync_rules version) rows }
    ensures sends { (version : ℕ) (rows : List RowValue) → IsStrictlySortedBy inner_place_cmp rows → CanSend (sync_rules version) rows }
{}

/// A side that begins to say a turn says the items that tell it, in order and with its end, and then hears the answers to
/// what the turn opened, or waits for a farewell where that is nothing.
pub fn turns_are_said()
    ensures { (place : Place) (t : TurnValue) (asks : List AskValue) → place.doing ≡ saying place.version t asks → says (length (turn_items place.version t)) place ≡ (turn_items place.version t, place_after place t asks) }
{}

/// A side that hears a turn, item by item, goes on to answer what the turn opens, or to say farewell where that is
/// nothing; the counted items of the turn are read then. A turn that is refused has an item that is. Likewise for the first
/// turn that the side reads that does not begin, and for a farewell: without an area it is the first turn, and behind
/// the own farewell it is the last.
pub fn turns_are_heard()
    ensures answers { (place : Place) (t : TurnValue) (asks opens : List AskValue)
        → HearsAnswers place asks → IsToldTurn place.version t → heard (sync_rules place.version) asks t ≡ Some opens → HasRoom place t
        → hears place (turn_items place.version t) ≡ Ok (place_behind place t opens) }
    ensures refused { (place : Place) (t : TurnValue) (asks : List AskValue)
        → HearsAnswers place asks → IsToldTurn place.version t → heard (sync_rules place.version) asks t ≡ None
        → IsErr (hears place (turn_items place.version t)) }
    ensures first { (place : Place) (t : TurnValue) (area : Ranges) (opens : List AskValue)
        → HearsFirst place → place.area ≡ Some area → IsToldTurn place.version t
        → first_opens area t.items t.ends_with_bye ≡ Some opens → HasRoom place t
        → hears place (turn_items place.version t) ≡ Ok (place_behind place t opens) }
    ensures first_refused { (place : Place) (t : TurnValue) (area : Ranges)
        → HearsFirst place → place.area ≡ Some area → IsToldTurn place.version t
        → first_opens area t.items t.ends_with_bye ≡ None
        → IsErr (hears place (turn_items place.version t)) }
    ensures without_area { (place : Place) → HearsFirst place → place.area ≡ None → HasRoom place bye
        → hears place (turn_items place.version bye) ≡ Ok (place_behind place bye []) }
    ensures last { (place : Place) → HearsLast place → HasRoom place bye
        → hears place (turn_items place.version bye) ≡ Ok (place_at_end place) }
{}

/// Items tell each turn that answers asks over rising rows, and where the rows fit frames and are no more than
/// `SNAPSHOT_MAX`, each of these items has a spelling; so has each of the first turn.
pub fn turns_are_spelled()
    ensures told { (version : ℕ) (rows : List RowValue) (asks : List AskValue)
        → IsStrictlySortedBy inner_place_cmp rows → IsToldTurn version (turn (sync_rules version) rows asks) }
    ensures spelled { (version : ℕ) (rows : List RowValue) (asks : List AskValue)
        → IsStrictlySortedBy inner_place_cmp rows → length rows ≤ SNAPSHOT_MAX → All HasFrame rows
        → All HasSpelling (turn_items version (turn (sync_rules version) rows asks)) }
    ensures first { (version : ℕ) (rows : List RowValue) (area : Ranges)
        → All HasSpelling (turn_items version (first_turn (sync_rules version) rows area)) }
{}

/// Two sides of one version over rising rows, of which each hears what the other says, say the exchange turn by turn: no item of it is
/// refused, not even for the number of items.
pub fn two_sides_say_the_exchange()
    ensures { (version : ℕ) (a b : List RowValue) (x : Option Ranges)
        → IsStrictlySortedBy inner_place_cmp a → IsStrictlySortedBy inner_place_cmp b
        → length a ≤ SNAPSHOT_MAX → length b ≤ SNAPSHOT_MAX
        → SayTurns (exchange (sync_rules version) a b x) (first_place version Caller a x) (first_place version Answerer b x) }
{}

/// Whatever a side reads, it tells only rows that it has in the box, each once: of the rows that pass a test no more than it has
/// there. Without a box it tells none.
pub fn each_row_once()
    ensures no_more { (version : ℕ) (role : Role) (rows : List RowValue) (x : Ranges) (read : List ItemValue) (passes : RowValue → Bool)
        → count_by passes (rows_said (first_place version role rows (Some x)) read) ≤ count_by passes (rows_in x rows) }
    ensures held { (version : ℕ) (role : Role) (rows : List RowValue) (x : Ranges) (read : List ItemValue)
        → All (Contains (rows_in x rows)) (rows_said (first_place version role rows (Some x)) read) }
    ensures once { (version : ℕ) (role : Role) (rows : List RowValue) (x : Ranges) (read : List ItemValue)
        → IsDistinct same_row rows → IsDistinct same_row (rows_said (first_place version role rows (Some x)) read) }
    ensures without_a_box { (version : ℕ) (role : Role) (rows : List RowValue) (read : List ItemValue)
        → rows_said (first_place version role rows None) read ≡ [] }
{}

/// What a snapshot keeps rises so: live rows of one namespace rise by subspace and path.
pub fn live_rows_rise()
    ensures { (rows : List RowValue) → AreLive rows → IsOfOneNamespace rows → IsStrictlySortedBy inner_place_cmp rows }
{}

/// The limit is this number.
pub fn limits()
    ensures rows { SNAPSHOT_MAX ≡ 65536 }
{}
