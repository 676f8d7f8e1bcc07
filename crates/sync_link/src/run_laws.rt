//! What holds of sessions that were run. These functions do nothing: each is called, if at all, for its clauses.

ghost use Rattle.std.specs.Prelude.{◌≡◌, ◌⊎◌, ℕ, ◌+◌, ◌≤◌, List, All, length, Ok, Err};
ghost use Rattle.scheme_core.specs.Rules.{Rules};
ghost use Rattle.willow_entry.specs.Row.{RowValue, AreLive, HasCovering, join};
ghost use Rattle.ns_state.specs.declared.live_log.TheConstants.{LOG_LIMIT};
ghost use Rattle.session_end.specs.declared.end.SessionEnd.TheVariants.{NoMemory};
ghost use Rattle.session_rules.specs.Rounds.{IsFront};
ghost use Rattle.sync_link.specs.Sessions.{Party, AreSameInCommon, box_with};
ghost use Rattle.sync_link.specs.Settling.{IsOpening};
ghost use Rattle.sync_link.specs.Kept.{log_rows};
ghost use Rattle.sync_link.specs.Run.{IsSilent};
ghost use Rattle.sync_link.specs.Ran.{Ran, side, opening_of, store_of, LiesAbove, BringSame, HasProved, AreAlike, TellsGranted, CanMeetAs, IsOther, IsAuthorisedRow, AreAuthorised, AreToldApart, most_counted, own_common, other_common, HasOther, SignsWell, IsFaultless, IsDone};
ghost use Rattle.sync_link.specs.declared.plan.SessionReport.{SessionReport};

/// Two sessions that bring the same scheme, namespace, role and hello, and the same signature if both wrote more than the hello,
/// whose stores offer the same rows in the area that both sides may read, and that read the same bytes: they do alike. Rows
/// elsewhere, the links and the logs change nothing of what is written, of the rows that come and of how a session ends that
/// did not fail.
pub fn runs_alike()
    ensures { (p q : List ℕ → Party) (one : Ran p) (other : Ran q)
        → BringSame (side one) (side other) → (HasProved one → HasProved other → (side other).signature ≡ (side one).signature)
        → other.did.bytes ≡ one.did.bytes
        → AreSameInCommon (side one) one.did.bytes (opening_of one) (opening_of other)
        → AreAlike one other }
{}

/// A session tells rows and fingerprints only to one that may read them: what it wrote is due to the bytes that it read, or a
/// front of that; there each item stands behind an accepted hello and proof, and each row is one that the hello's capability
/// grants.
pub fn runs_granted()
    ensures { (p : List ℕ → Party) (ran : Ran p) → TellsGranted ran }
{}

/// Of two sessions that can meet, where each read what the other wrote or a front of that, the one is the other side of the
/// other, unless memory was wanting there before it read or wrote anything. So the bound below holds of it, and covering where
/// its further premises do.
pub fn runs_meet()
    ensures { (p q : List ℕ → Party) (one : Ran p) (other : Ran q)
        → CanMeetAs one other → (other.answer ≡ Err NoMemory → IsSilent other.did.bytes other.did.written → ⊥)
        → IsFront one.did.bytes other.did.written → IsFront other.did.bytes one.did.written
        → IsOther one (side other) (opening_of other) }
{}

/// The other side may have whatever rows are live and authorised in the namespace, no more than a log takes: with such rows a
/// store begins a session.
pub fn stores_open()
    ensures { (rules : Rules) (namespace : List ℕ) (rows : List RowValue)
        → AreLive rows → length rows ≤ LOG_LIMIT → All (IsAuthorisedRow rules namespace) rows → IsOpening namespace rows }
{}

/// Where a session answers Ok that read what such another side writes, at most so many counted items were sent and read: 3,
/// or thrice the rows that both offer in the area that both may read, and none where there is no such area. The log that its
/// pass has seen covers all that the other offers there, if its rows are authorised and the fingerprints of their exchange tell
/// rows apart.
pub fn runs_cover()
    ensures counted { (p : List ℕ → Party) (ran : Ran p) (report : SessionReport) (q : Party) (others : List RowValue)
        → ran.answer ≡ Ok report → IsOther ran q others
        → report.sent + report.read ≤ most_counted (box_with (side ran) q.hello) (length (own_common ran q)) (length (other_common ran q others)) }
    ensures covers { (p : List ℕ → Party) (ran : Ran p) (report : SessionReport) (q : Party) (others : List RowValue)
        → ran.answer ≡ Ok report → IsOther ran q others → AreAuthorised ran others
        → AreToldApart ran q others
        → All (HasCovering (log_rows ran.after.seen)) (other_common ran q others) }
{}

/// Whatever a session answers, the store behind it covers its opening store. Where it answers Ok that read what such another
/// side writes, and with the premises of covering, the store lies at or above the join of the opening store with the rows that
/// the other offers in the area that both may read.
pub fn runs_join()
    ensures keeps { (p : List ℕ → Party) (ran : Ran p) → LiesAbove (store_of ran) (opening_of ran) }
    ensures above { (p : List ℕ → Party) (ran : Ran p) (report : SessionReport) (q : Party) (others : List RowValue)
        → ran.answer ≡ Ok report → IsOther ran q others → AreAuthorised ran others
        → AreToldApart ran q others
        → LiesAbove (store_of ran) (join (opening_of ran) (other_common ran q others)) }
{}

/// A session whose other side keeps to the rules, whose reads meet the end only where all that the other side writes was read,
/// whose signer signs well and of which no count of faults rose, comes to its end: it answers Ok, that the log is full, or that
/// memory was wanting.
pub fn runs_end()
    ensures { (p : List ℕ → Party) (ran : Ran p) (q : Party) (others : List RowValue)
        → HasOther ran q others → SignsWell ran → IsFaultless ran
        → IsDone ran.answer ⊎ (ran.answer ≡ Err NoMemory) }
{}
