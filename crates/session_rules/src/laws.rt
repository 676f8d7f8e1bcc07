//! The laws of sessions, each the contract of a function that does nothing, at whatever states, messages, rows and causes
//! to refuse there are.

ghost use Rattle.std.specs.Prelude.{◌≡◌, [], ◌∷◌};
ghost use Rattle.session_rules.specs.Reading.{Done, More, BadMessage, Refusal, said, out, got, ending, Shows};
ghost use Rattle.session_rules.specs.Rounds.{rounds};
ghost use Rattle.session_rules.specs.Messages.{CanTalk};
ghost use Rattle.session_rules.specs.Talk.{TellsOwn};
ghost use Rattle.session_rules.specs.Session.{InGreeting};
ghost use Rattle.session_rules.specs.Pairs.{calling, answering, caller_side, answerer_side, GreetEachOther};
ghost use Rattle.session_rules.specs.Adding.{adding};
ghost use Rattle.session_rules.specs.Telling.{by_telling, tellers, caller_told, answerer_told, TellingCallerIsOver};
ghost use Rattle.session_rules.specs.Laws.{TwoPiecesReadAlike, PiecesReadAlike, OutGrows, GotGrows, OverWritesNoMore, OverTakesNoMore, OverStaysOver, PartsWriteNothing, PartsTakeNothing, PartsEndNothing, MoreWaits, DoneByMessage, BadByMessage, RefusedByMessage, ReadsMessages, RoundsWriteFronts, FirstOverSettles, SecondOverSettles, OverRoundsMeet, RoundsSpellDialogue, OverIsDialogue, OverDialogueMeets};
ghost use Rattle.session_rules.specs.SessionLaws.{ItemsAreGranted, RowsAreGranted, ToldRowsAreOffered, ToldRowsAreExchange, ToldRowsAreFew, ProofsAreGranted, OutSeesOfferedAlone, GotSeesOfferedAlone, EndingSeesOfferedAlone, AnotherProofIsRetold, AnotherProofGetsSame, AnotherProofEndsAlike, GreetedWritesExchange, GreetedGetsExchange, GreetedEndsAsExchange, SessionRoundsAreExchange, SessionsSettle, SessionsMeet};
ghost use Rattle.session_rules.specs.TurnLaws.{ItemsTellTurns, CallerHearsTurns, AnswererHearsTurns, WholeTurnsAreTaken, TurnsSettle, TurnsMeet};

/// A small machine on no bytes, on two messages, on one and a half, on one behind that which ends it, on one that it
/// refuses, and on bytes that are none.
#[tactic(auto, unfolding(crate::specs::Reading::run))]
pub fn a_small_machine()
    ensures nothing { Shows adding [] (0 ∷ []) [] More }
    ensures two { Shows adding (2 ∷ 1 ∷ 2 ∷ 1 ∷ 5 ∷ []) (0 ∷ 3 ∷ 8 ∷ []) (1 ∷ 2 ∷ 5 ∷ []) More }
    ensures part { Shows adding (2 ∷ 1 ∷ 2 ∷ 2 ∷ 5 ∷ []) (0 ∷ 3 ∷ []) (1 ∷ 2 ∷ []) More }
    ensures done { Shows adding (1 ∷ 1 ∷ 0 ∷ 1 ∷ 5 ∷ []) (0 ∷ 1 ∷ []) (1 ∷ []) Done }
    ensures refused { Shows adding (1 ∷ 1 ∷ 2 ∷ 2 ∷ 9 ∷ []) (0 ∷ 1 ∷ []) (1 ∷ []) (Refusal 9) }
    ensures bad { Shows adding (1 ∷ 1 ∷ 5 ∷ 1 ∷ []) (0 ∷ 1 ∷ []) (1 ∷ []) (BadMessage 2) }
{}

/// Two small sessions, which write what was written out by hand. A side that refuses a hello or a proof writes nothing
/// further; one that has nothing in common with the other says so.
#[tactic(auto, unfolding(crate::specs::Reading::run, crate::specs::Talk::speaks, crate::specs::Rounds::rounds))]
pub fn a_small_session()
    ensures caller { Shows (calling tellers) answerer_told caller_told (2 ∷ []) Done }
    ensures answerer { Shows (answering tellers) caller_told answerer_told (1 ∷ 3 ∷ 5 ∷ []) Done }
    ensures rounds { rounds (out (calling tellers)) (out (answering tellers)) 3 ≡ (caller_told, answerer_told) }
    ensures bad_hello { Shows (answering tellers) (0 ∷ 15 ∷ 0 ∷ []) [] [] (Refusal (InGreeting 0)) }
    ensures bad_proof { Shows (calling tellers) (6 ∷ 15 ∷ 3 ∷ 0 ∷ []) (9 ∷ []) [] (Refusal (InGreeting 1)) }
    ensures nothing_in_common { Shows (calling tellers) (1 ∷ 11 ∷ 0 ∷ []) (9 ∷ 15 ∷ 0 ∷ []) [] Done }
{}

/// These two meet what the laws of two sessions ask: their greetings pass, and each reads what the other says.
pub fn a_small_session_is_lawful()
    ensures greets { GreetEachOther tellers }
    ensures reads { CanTalk (caller_side tellers) (answerer_side tellers) 1 }
    ensures over { TellingCallerIsOver }
    ensures own { TellsOwn by_telling }
{}

/// In whatever pieces bytes come, the same comes of them.
#[tactic(auto, using(crate::proofs::Runs::run_append, crate::proofs::Runs::run_pieces))]
pub fn pieces<S, M, O, R, E>()
    ensures two { TwoPiecesReadAlike S M O R E }
    ensures many { PiecesReadAlike S M O R E }
{}

/// More bytes take back nothing that was written or taken before, and once a machine has ended or refused they change
/// nothing.
pub fn grows<S, M, O, R, E>()
    ensures out { OutGrows S M O R E }
    ensures got { GotGrows S M O R E }
    ensures out_over { OverWritesNoMore S M O R E }
    ensures got_over { OverTakesNoMore S M O R E }
    ensures ending_over { OverStaysOver S M O R E }
{}

/// What is written and taken before a message is whole does not depend on it: while bytes are a part of one they change
/// nothing, and more is due.
pub fn nothing_early<S, M, O, R, E>()
    ensures out { PartsWriteNothing S M O R E }
    ensures got { PartsTakeNothing S M O R E }
    ensures ending { PartsEndNothing S M O R E }
{}

/// A machine ends by the first message that ends it, that it refuses or that is none; where more is due it waits for one.
/// An offset is where that message begins.
pub fn ends_by_a_message<S, M, O, R, E>()
    ensures more { MoreWaits S M O R E }
    ensures done { DoneByMessage S M O R E }
    ensures bad { BadByMessage S M O R E }
    ensures refused { RefusedByMessage S M O R E }
{}

/// Two machines that each read what the other writes: after each round both have written a front of that. Where one of
/// them has ended in a round, the next round gives all that they write, whatever it is; and so there is such a pair.
pub fn meet<S, M, O, R, E, S2, M2, O2, R2, E2>()
    ensures fronts { RoundsWriteFronts S M O R E S2 M2 O2 R2 E2 }
    ensures first_over { FirstOverSettles S M O R E S2 M2 O2 R2 E2 }
    ensures second_over { SecondOverSettles S M O R E S2 M2 O2 R2 E2 }
    ensures they_meet { OverRoundsMeet S M O R E S2 M2 O2 R2 E2 }
{}

/// Messages of which a machine can read each by its bytes it reads one after the other where their bytes are joined.
pub fn reads_messages<S, M, O, R, E>()
    ensures { ReadsMessages S M O R E }
{}

/// Two machines that read each other's messages: what they write is what they say, round by round. Where the first has
/// ended, this is all that they write, whatever it is; and so there is such a pair.
pub fn messages_meet<S, M, O, R, E, S2, R2, E2>()
    ensures rounds { RoundsSpellDialogue S M O R E S2 R2 E2 }
    ensures over { OverIsDialogue S M O R E S2 R2 E2 }
    ensures they_meet { OverDialogueMeets S M O R E S2 R2 E2 }
{}

/// Where a side said an item or took a row, what it read begins with a hello that passes and a proof that is accepted, and
/// the exchange over the rows that it offers, by what it agreed on with the other, said or took it, reading what stands
/// behind them. So if sides of the exchange tell only rows that they began with, each row that it told is one that it offers.
/// It says its own proof only where what it read begins with a hello that passes.
pub fn grants<H, P, A, F, R, T, I, G>()
    ensures items { ItemsAreGranted H P A F R T I G }
    ensures rows { RowsAreGranted H P A F R T I G }
    ensures told { ToldRowsAreOffered H P A F R T I G }
    ensures proofs { ProofsAreGranted H P A F R T I G }
{}

/// No row stands in what a side says more often than it offers it to the other, where sides of the exchange tell none more
/// often than they began with it; and before a greeting that passes none is told at all.
pub fn each_row_once<H, P, A, F, R, T, I, G>()
    ensures exchange { ToldRowsAreExchange H P A F R T I G }
    ensures few { ToldRowsAreFew H P A F R T I G }
{}

/// What a side writes and takes and how it ends is a function of the rows that it offers, of its own part, and of the bytes
/// that it reads: rows that it does not offer to the other change nothing.
pub fn worlds<H, P, A, F, R, T, I, G>()
    ensures out { OutSeesOfferedAlone H P A F R T I G }
    ensures got { GotSeesOfferedAlone H P A F R T I G }
    ensures ending { EndingSeesOfferedAlone H P A F R T I G }
{}

/// The own proof is told, and nothing else hangs on it: a side with another one says the same with that in its place, takes
/// the same rows and comes to the same end.
pub fn another_proof<H, P, A, F, R, T, I, G>()
    ensures said { AnotherProofIsRetold H P A F R T I G }
    ensures got { AnotherProofGetsSame H P A F R T I G }
    ensures ending { AnotherProofEndsAlike H P A F R T I G }
{}

/// Behind a hello that passes and a proof that is accepted a session is the exchange, by what both hellos agree on and over
/// the rows that the side offers.
pub fn goes_on_as_exchange<H, P, A, F, R, T, I, G>()
    ensures out { GreetedWritesExchange H P A F R T I G }
    ensures got { GreetedGetsExchange H P A F R T I G }
    ensures ending { GreetedEndsAsExchange H P A F R T I G }
{}

/// Two sessions whose greetings pass, each of which reads what the other writes: they write their greetings and what the
/// two exchanges write. Where the caller has ended in a round of these, this is all that they write, whatever it is; and so
/// there is such a pair.
pub fn sessions_meet<H, P, A, F, R, T, I, G>()
    ensures rounds { SessionRoundsAreExchange H P A F R T I G }
    ensures settled { SessionsSettle H P A F R T I G }
    ensures they_meet { SessionsMeet H P A F R T I G }
{}

/// Two sides that take the turns of an exchange by its rules say these turns in items, and each is over with the rows
/// that it is sent.
pub fn items_tell_turns<R, X, C, T, I, G>()
    ensures said { ItemsTellTurns R X C T I G }
    ensures caller { CallerHearsTurns R X C T I G }
    ensures answerer { AnswererHearsTurns R X C T I G }
{}

/// For any lawful rules there are sides that take the turns of their exchanges: those that say and read whole turns.
pub fn whole_turns<R, X, C>()
    ensures { WholeTurnsAreTaken R X C }
{}

/// Two sessions whose greetings pass and whose sides take the turns of an exchange, each of which reads what the other
/// writes: whatever they write are their greetings and these turns, both are done, and each has the rows that the exchange
/// sends it; and so there is such a pair.
pub fn settles<H, P, A, F, R, X, T, I, G, C>()
    ensures settled { TurnsSettle H P A F R X T I G C }
    ensures they_meet { TurnsMeet H P A F R X T I G C }
{}
