//! What holds of sessions. These functions do nothing: each is called, if at all, for its clauses.

ghost use Rattle.std.specs.Prelude.{◌≡◌, ◌⊎◌, ℕ, ◌≤◌, Bool, List, [], ◌++◌, count_by, All, Contains, None, Some};
ghost use Rattle.std.specs.List.{IsDistinct};
ghost use Rattle.spelling.specs.Form.{AreBytes};
ghost use Rattle.willow_area.specs.Area.{IsArea};
ghost use Rattle.willow_area.specs.Boxes.{Ranges};
ghost use Rattle.willow_entry.specs.EntryForm.{IsEntry};
ghost use Rattle.willow_entry.specs.Row.{RowValue, AreLive, HasCovering, join, same_row};
ghost use Rattle.block_store.specs.BoxKinds.{IsOfOneNamespace};
ghost use Rattle.block_store.specs.InBox.{rows_in};
ghost use Rattle.area_interest.specs.Interest.{interest};
ghost use Rattle.area_interest.specs.Limits.{HasNoLimit};
ghost use Rattle.sync_hello.specs.declared.hello.Hello.{Hello};
ghost use Rattle.sync_msg.specs.Items.{ItemValue};
ghost use Rattle.sync_msg.specs.declared.item.Item.TheVariants.{Row};
ghost use Rattle.sync_core.specs.Place.{Place, rows_of_area};
ghost use Rattle.sync_core.specs.Steps.{said as next_item};
ghost use Rattle.session_rules.specs.Reading.{start, read, then};
ghost use Rattle.session_rules.specs.Rounds.{IsFront, IsOver, Meet};
ghost use Rattle.session_rules.specs.Session.{Item};
ghost use Rattle.session_rules.specs.Talk.{spoken};
ghost use Rattle.sync_link.specs.Places.{places};
ghost use Rattle.sync_link.specs.Sessions.{Party, AreOfferedTo, AreSameInCommon, box_with, offered_to, rows_with, session_of, ending, got, out, said, told_rows, without_limits};
ghost use Rattle.sync_link.specs.Granting.{IsGranted, GrantsRow};
ghost use Rattle.sync_link.specs.Settling.{AreDone, CanMeet, IsOpening, AreApartBetween};

/// In whatever pieces bytes come, the same comes of them.
#[tactic(auto, using(session_rules::proofs::Runs::run_append))]
pub fn pieces()
    ensures { (p : Party) (rows : List RowValue) (bytes more : List ℕ)
        → read (session_of p rows) (start (session_of p rows)) (bytes ++ more)
        ≡ then (read (session_of p rows) (start (session_of p rows)) bytes)
        (read (session_of p rows) (read (session_of p rows) (start (session_of p rows)) bytes).stand more) }
{}

/// Further bytes only add to what a session writes and takes, and behind its end they change nothing.
pub fn grows()
    ensures out { (p : Party) (rows : List RowValue) (bytes more : List ℕ) → IsFront (out p rows bytes) (out p rows (bytes ++ more)) }
    ensures got { (p : Party) (rows : List RowValue) (bytes more : List ℕ) → IsFront (got p rows bytes) (got p rows (bytes ++ more)) }
    ensures out_over { (p : Party) (rows : List RowValue) (bytes more : List ℕ) → IsOver (ending p rows bytes) → out p rows (bytes ++ more) ≡ out p rows bytes }
    ensures got_over { (p : Party) (rows : List RowValue) (bytes more : List ℕ) → IsOver (ending p rows bytes) → got p rows (bytes ++ more) ≡ got p rows bytes }
    ensures ending_over { (p : Party) (rows : List RowValue) (bytes more : List ℕ) → IsOver (ending p rows bytes) → ending p rows (bytes ++ more) ≡ ending p rows bytes }
{}

/// Where a side says an item, be it a row or a fingerprint, what it read begins with the other side's hello and proof: the
/// hello passes, and the proof is accepted for the receiver of the hello's capability. Each row that it says is one of
/// those that it has, and what that capability grants includes it.
pub fn granted()
    ensures items { (p : Party) (rows : List RowValue) (bytes : List ℕ) (item : ItemValue)
        → AreBytes bytes → Contains (said p rows bytes) (Item item) → IsGranted p bytes }
    ensures rows { (p : Party) (rows : List RowValue) (bytes : List ℕ) (row : RowValue)
        → AreBytes bytes → IsArea p.hello.ask → All (λ r. IsEntry r.entry) rows → Contains (said p rows bytes) (Item (Row row))
        → (granted : IsGranted p bytes) × (Contains rows row × GrantsRow granted.hello row) }
{}

/// Whatever a side reads, it tells no row twice, and only rows that it offers in the area that both may read: of the rows that
/// pass a test it tells no more than it offers, and none before the greeting of one that may read them.
pub fn each_row_once()
    ensures few { (p : Party) (rows : List RowValue) (bytes : List ℕ) → AreBytes bytes
        → (told_rows p rows bytes ≡ [])
        ⊎ ((granted : IsGranted p bytes) × ((passes : RowValue → Bool) → count_by passes (told_rows p rows bytes) ≤ count_by passes (rows_with p granted.hello rows))) }
    ensures offered { (p : Party) (rows : List RowValue) (bytes : List ℕ) (row : RowValue) → AreBytes bytes → Contains (told_rows p rows bytes) row
        → (granted : IsGranted p bytes) × Contains (rows_with p granted.hello rows) row }
    ensures once { (p : Party) (rows : List RowValue) (bytes : List ℕ) → IsOpening p.namespace rows → IsDistinct same_row (told_rows p rows bytes) }
{}

/// What a side writes and takes and how it ends is a function of the rows that it offers in the area that both may read, of what
/// it brings besides, and of the bytes that it reads: other rows change nothing.
pub fn worlds()
    ensures out { (p : Party) (rows others : List RowValue) (bytes : List ℕ) → AreSameInCommon p bytes rows others → out p rows bytes ≡ out p others bytes }
    ensures got { (p : Party) (rows others : List RowValue) (bytes : List ℕ) → AreSameInCommon p bytes rows others → got p rows bytes ≡ got p others bytes }
    ensures ending { (p : Party) (rows others : List RowValue) (bytes : List ℕ) → AreSameInCommon p bytes rows others → ending p rows bytes ≡ ending p others bytes }
{}

/// The exchange begins over the rows of interest in the area that both may read: the most recent ones there, as far as the side's
/// limits leave; all rows there, where nothing is limited. Without such an area it begins over none.
pub fn offers()
    ensures limited { (p : Party) (hello : Hello) (rows : List RowValue) (x : Ranges)
        → box_with p hello ≡ Some x → rows_with p hello rows ≡ interest rows x p.interest.newest p.interest.bytes }
    ensures unlimited { (p : Party) (hello : Hello) (rows : List RowValue) (x : Ranges)
        → box_with p hello ≡ Some x → HasNoLimit p.interest → AreLive rows → IsOfOneNamespace rows → rows_with p hello rows ≡ rows_in x rows }
    ensures nowhere { (p : Party) (hello : Hello) (rows : List RowValue) → box_with p hello ≡ None → rows_with p hello rows ≡ [] }
{}

/// What a side with limits writes and takes and how it ends is as with one that limits nothing and has those rows alone which
/// it offers.
pub fn limits()
    ensures out { (p : Party) (rows shown : List RowValue) (bytes : List ℕ) → IsOpening p.namespace rows → AreOfferedTo p bytes rows shown → out p rows bytes ≡ out (without_limits p) shown bytes }
    ensures got { (p : Party) (rows shown : List RowValue) (bytes : List ℕ) → IsOpening p.namespace rows → AreOfferedTo p bytes rows shown → got p rows bytes ≡ got (without_limits p) shown bytes }
    ensures ending { (p : Party) (rows shown : List RowValue) (bytes : List ℕ) → IsOpening p.namespace rows → AreOfferedTo p bytes rows shown → ending p rows bytes ≡ ending (without_limits p) shown bytes }
{}

/// A side says all that there is to say before it reads: where it has spoken, there is no next item.
#[tactic(auto, using(crate::proofs::Speaking::all_spoken))]
pub fn speaks_to_the_end()
    ensures { (place : Place) → next_item (spoken places place).1 ≡ None }
{}

/// A caller and an answerer by one scheme and in one namespace, each of which accepts the other's hello and proof and
/// reads what the other writes: both come to the end, and each is sent the rows that the exchange of what they offer in the
/// area that both may read sends it, in the highest version that both speak. Where the fingerprints of that exchange tell
/// rows apart, each covers, with the rows that it was sent, all that the other offers there. And there is what they write to
/// each other.
pub fn settles()
    ensures they_meet { (p q : Party) (rows others : List RowValue)
        → CanMeet p q → IsOpening p.namespace rows → IsOpening p.namespace others
        → (left : List ℕ) × (right : List ℕ) × Meet (out p rows) (out q others) left right }
    ensures done { (p q : Party) (rows others : List RowValue) (left right : List ℕ)
        → CanMeet p q → IsOpening p.namespace rows → IsOpening p.namespace others
        → Meet (out p rows) (out q others) left right → AreDone p q rows others left right }
    ensures caller_covers { (p q : Party) (rows others : List RowValue) (left right : List ℕ)
        → CanMeet p q → IsOpening p.namespace rows → IsOpening p.namespace others
        → Meet (out p rows) (out q others) left right → AreApartBetween p q rows others
        → All (HasCovering (join rows (got p rows right))) (rows_of_area (box_with p q.hello) (offered_to q p.hello others)) }
    ensures answerer_covers { (p q : Party) (rows others : List RowValue) (left right : List ℕ)
        → CanMeet p q → IsOpening p.namespace rows → IsOpening p.namespace others
        → Meet (out p rows) (out q others) left right → AreApartBetween p q rows others
        → All (HasCovering (join others (got q others left))) (rows_of_area (box_with p q.hello) (offered_to p q.hello rows)) }
{}
