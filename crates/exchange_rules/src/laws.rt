//! The laws of the exchange, each the contract of a function that does nothing, at whatever rows `R`, boxes `X` and
//! cuts `C` there are.

ghost use Rattle.std.specs.Prelude.{◌≡◌, [], ◌∷◌, Some, None};
ghost use Rattle.exchange_rules.specs.Items.{counted, to_left, to_right, caller_turns, answerer_turns};
ghost use Rattle.exchange_rules.specs.Exchange.{turns};
ghost use Rattle.exchange_rules.specs.AnyPeer.{caller, answerer};
ghost use Rattle.exchange_rules.specs.Numbers.{of_numbers};
ghost use Rattle.exchange_rules.specs.Small.{doubles, doubles_but_one, up_to_eighty, sixteen_few, items_by_turn, one_to_six, seven_for_five, up_to_ten, turns_of_caller, turns_of_answerer, small_exchange};
ghost use Rattle.exchange_rules.specs.NumberLaws.{NumbersAreDecided, RangesHaveDisjointParts, RisingNumbersCanCut, RisingNumbersCanSend, NumbersAreApart};
ghost use Rattle.exchange_rules.specs.Laws.{ExchangesEnd, MoreTurnsAddNone, ItemsAreFew, SidesAddUp, NoItemsWithoutBox, LeftGetsOnlyHeld, RightGetsOnlyHeld, LeftGetsOnce, RightGetsOnce, LeftGetsLacked, RightGetsLacked, CallerSendsHeld, AnswererSendsHeld, CallerSendsOnce, AnswererSendsOnce, CallerSendsNoMore, AnswererSendsNoMore, FrontsSendNoMore, NoRowsWithoutBox, CallerSeesBoxAlone, AnswererSeesBoxAlone, NoneSeesRowsWithoutBox, ExchangesSeeBoxAlone, ApartSeesBoxAlone, CallerWritesExchange, AnswererWritesExchange, CallerGoesOnByExchange, AnswererGoesOnByExchange};

/// A small exchange of numbers is the one that was written out by hand, and so is what each side writes alone.
#[tactic(auto, unfolding(crate::specs::Answer::reply, crate::specs::Exchange::turns, crate::specs::AnyPeer::opens_at, crate::specs::AnyPeer::heard, crate::specs::AnyPeer::answers))]
pub fn a_small_exchange()
    ensures caller { caller_turns small_exchange ≡ turns_of_caller }
    ensures answerer { answerer_turns small_exchange ≡ turns_of_answerer }
    ensures to_left { to_left small_exchange ≡ 6 ∷ 7 ∷ [] }
    ensures to_right { to_right small_exchange ≡ 5 ∷ [] }
    ensures counted { counted small_exchange ≡ 7 }
    ensures caller_alone { caller (of_numbers 2) one_to_six (Some up_to_ten) turns_of_answerer ≡ turns_of_caller }
    ensures answerer_alone { answerer (of_numbers 2) seven_for_five (Some up_to_ten) turns_of_caller ≡ turns_of_answerer }
{}

/// Where sixteen rows are few: forty rows a side of which one differs are told in seven items, seventeen rows to a side
/// that has none in six, and nothing to nobody in two. Without a box there are just the farewells.
#[tactic(auto, unfolding(crate::specs::Answer::reply, crate::specs::Exchange::turns))]
pub fn exchanges_of_many()
    ensures one_differs { items_by_turn (sixteen_few (doubles 40) doubles_but_one (Some up_to_eighty))
        ≡ 1 ∷ 1 ∷ 2 ∷ 2 ∷ 1 ∷ 0 ∷ [] }
    ensures left_has_it { to_left (sixteen_few (doubles 40) doubles_but_one (Some up_to_eighty))
        ≡ 40 ∷ 42 ∷ 44 ∷ 46 ∷ 48 ∷ 51 ∷ 52 ∷ 54 ∷ 56 ∷ 58 ∷ [] }
    ensures right_has_it { to_right (sixteen_few (doubles 40) doubles_but_one (Some up_to_eighty)) ≡ 50 ∷ [] }
    ensures none_here { items_by_turn (sixteen_few [] (doubles 17) (Some up_to_eighty)) ≡ 1 ∷ 1 ∷ 2 ∷ 2 ∷ 0 ∷ [] }
    ensures none_at_all { items_by_turn (sixteen_few [] [] (Some up_to_eighty)) ≡ 1 ∷ 1 ∷ 0 ∷ [] }
    ensures no_box { items_by_turn (sixteen_few (doubles 40) doubles_but_one None) ≡ 0 ∷ 0 ∷ [] }
{}

/// The rules of these exchanges meet all that the laws ask, for every two lists of rising numbers.
pub fn numbers()
    ensures decide { NumbersAreDecided }
    ensures disjoint { RangesHaveDisjointParts }
    ensures can_cut { RisingNumbersCanCut }
    ensures can_send { RisingNumbersCanSend }
    ensures apart { NumbersAreApart }
{}

/// The exchange ends with a farewell of each side, and with more turns allowed it is the same.
#[tactic(auto, using(crate::proofs::Ends::exchange_ends, crate::proofs::Ends::exchange_settled))]
pub fn exchange_ends<R, X, C>()
    ensures ends { ExchangesEnd R X C }
    ensures settled { MoreTurnsAddNone R X C }
{}

/// Of a box with `a` and `b` rows of the sides the exchange has at most max(3, 3(a + b)) items, those of both sides
/// together; without a box it has none.
#[tactic(auto, using(crate::proofs::Costs::counted_exchange, crate::proofs::Costs::counted_sides))]
pub fn bound<R, X, C>()
    ensures counted { ItemsAreFew R X C }
    ensures sides { SidesAddUp R X C }
    ensures without_a_box { NoItemsWithoutBox R X C }
{}

/// Each side is sent only rows that the other side holds in the box, each once. Where the fingerprints of the exchange
/// tell rows apart, it is sent each of them that it lacks.
pub fn convergence<R, X, C>()
    ensures left_only { LeftGetsOnlyHeld R X C }
    ensures right_only { RightGetsOnlyHeld R X C }
    ensures left_once { LeftGetsOnce R X C }
    ensures right_once { RightGetsOnce R X C }
    ensures left_gets { LeftGetsLacked R X C }
    ensures right_gets { RightGetsLacked R X C }
{}

/// Whatever a peer says, a side sends it only rows that it holds in the box, each once: of rows that pass a test no
/// more than it holds there. A side that stops earlier, after a front of these turns, sends no more. Without a box it
/// sends none.
pub fn each_row_once<R, X, C>()
    ensures caller_held { CallerSendsHeld R X C }
    ensures answerer_held { AnswererSendsHeld R X C }
    ensures caller_once { CallerSendsOnce R X C }
    ensures answerer_once { AnswererSendsOnce R X C }
    ensures caller_counted { CallerSendsNoMore R X C }
    ensures answerer_counted { AnswererSendsNoMore R X C }
    ensures fronts { FrontsSendNoMore R X C }
    ensures without_a_box { NoRowsWithoutBox R X C }
{}

/// What a side writes is a function of its rows in the box and of what it reads: rows elsewhere change nothing.
pub fn two_worlds<R, X, C>()
    ensures caller { CallerSeesBoxAlone R X C }
    ensures answerer { AnswererSeesBoxAlone R X C }
    ensures without_a_box { NoneSeesRowsWithoutBox R X C }
{}

/// Rows elsewhere change nothing of an exchange either, nor of whether its fingerprints tell rows apart.
pub fn two_exchanges<R, X, C>()
    ensures same { ExchangesSeeBoxAlone R X C }
    ensures apart { ApartSeesBoxAlone R X C }
{}

/// Two sides that each read what the other writes write the exchange, whatever they write; and to the turns of the one
/// in it the other answers with its own, so there is such a pair.
pub fn both_write_the_exchange<R, X, C>()
    ensures caller { CallerWritesExchange R X C }
    ensures answerer { AnswererWritesExchange R X C }
    ensures caller_goes_on { CallerGoesOnByExchange R X C }
    ensures answerer_goes_on { AnswererGoesOnByExchange R X C }
{}
