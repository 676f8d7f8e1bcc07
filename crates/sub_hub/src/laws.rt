//! Laws of hubs. These functions do nothing: each is called, if at all, for its clauses.

ghost use Rattle.std.specs.Prelude.{◌≡◌, ◌≢◌, ◌↔◌, ℕ, ◌+◌, ◌<◌, ◌≤◌, ◌++◌, List, [], Some, None, Option, All, AllPairs, Contains, true, false};
ghost use Rattle.willow_entry.specs.Row.{RowValue};
ghost use Rattle.willow_area.specs.declared.area.Area.{Area};
ghost use Rattle.sub_hub.specs.declared.key.HubKey.{HubKey};
ghost use Rattle.sub_hub.specs.Heard.{Note, heard, rows_between, IsHeardOf};
ghost use Rattle.sub_hub.specs.Watchers.{WatcherFacts, HearsEach, HearsUntil, IsToldOf};
ghost use Rattle.sub_hub.specs.Hubs.{HubValue, MemberValue, IsWatcherAdded, Removes, IsPumped, hub_slot, member_at, new_member};
ghost use Rattle.sub_hub.specs.Calls.{Call, MakeAll, Spares, heard_in};

/// What is heard of a log has a note for just those rows at the positions from one up to but not including another whose entries
/// both areas include, by rising position, so none twice; and what is heard piece by piece is what is heard of the whole.
pub fn heard_rows()
    ensures members { (log : List RowValue) (own served : Area) (from to : ℕ) (note : Note)
        → Contains (heard log own served from to) note ↔ IsHeardOf log own served from to note }
    ensures rising { (log : List RowValue) (own served : Area) (from to : ℕ) → AllPairs (λ a b. a.at < b.at) (heard log own served from to) }
    ensures pieces { (log : List RowValue) (own served : Area) (from middle to : ℕ) → from ≤ middle → middle ≤ to
        → heard log own served from to ≡ heard log own served from middle ++ heard log own served middle to }
{}

/// Two pumps, one after the other, are one pump of both slices. Where no row is pumped nothing changes, and where nobody
/// watches nobody leaves.
pub fn pumps_in_turn()
    ensures twice { (a b c : HubValue) (xs ys : List RowValue) (n m : ℕ) → IsPumped a b xs n → IsPumped b c ys m → IsPumped a c (xs ++ ys) (n + m) }
    ensures nothing { (a : HubValue) → IsPumped a a [] 0 }
    ensures nobody { (a b : HubValue) (xs : List RowValue) (n : ℕ) → IsPumped a b xs n → ((slot : ℕ) → hub_slot a.members slot ≡ None) → n ≡ 0 }
{}

/// What a pump of a log from the front up to a position tells a watcher: all that it is to hear of, where it stays; up to a
/// note for which it left, where it leaves; nothing, where it left before.
pub fn pumps_of_a_log()
    ensures stays { (old new : HubValue) (log : List RowValue) (to left slot : ℕ) (m m' : MemberValue)
        → IsPumped old new (rows_between log old.front to) left
        → hub_slot old.members slot ≡ Some m → hub_slot new.members slot ≡ Some m'
        → m.has_left ≡ false → m'.has_left ≡ false → HearsEach m.facts m'.facts (heard log m.area old.area old.front to) }
    ensures leaves { (old new : HubValue) (log : List RowValue) (to left slot : ℕ) (m m' : MemberValue)
        → IsPumped old new (rows_between log old.front to) left
        → hub_slot old.members slot ≡ Some m → hub_slot new.members slot ≡ Some m'
        → m.has_left ≡ false → m'.has_left ≡ true → HearsUntil m.facts m'.facts (heard log m.area old.area old.front to) }
    ensures gone { (old new : HubValue) (log : List RowValue) (to left slot : ℕ) (m m' : MemberValue)
        → IsPumped old new (rows_between log old.front to) left
        → hub_slot old.members slot ≡ Some m → hub_slot new.members slot ≡ Some m'
        → m.has_left ≡ true → (m'.has_left ≡ true) × (m'.facts ≡ m.facts) }
{}

/// Over every list of calls of a hub, whatever each of them is, that are not the removal of a watcher: it stands under its key,
/// for its area, and heard of all rows of its area that were pumped, once and in order, or left at one of them.
pub fn watchers_hear_in_order()
    ensures { (old new : HubValue) (calls : List Call) (key : HubKey) (m : MemberValue)
        → MakeAll old calls new → member_at old key ≡ Some m → All (Spares key) calls
        → (m' : MemberValue) × (member_at new key ≡ Some m') × (m'.area ≡ m.area)
        × IsToldOf m.has_left m'.has_left m.facts m'.facts (heard_in m.area old.area old.front calls) }
{}

/// Who was added stands under its key. Whatever calls lie between, no two adds of a hub give one key, and once a key was asked
/// back nobody stands under it any more.
pub fn keys_are_given_once()
    ensures found { (old new : HubValue) (key : HubKey) (area : Area) (facts : WatcherFacts)
        → IsWatcherAdded old new key area facts → member_at new key ≡ Some (new_member old.added area facts) }
    ensures differ { (a b c d : HubValue) (key other : HubKey) (area area' : Area) (facts facts' : WatcherFacts) (calls : List Call)
        → IsWatcherAdded a b key area facts → MakeAll b calls c → IsWatcherAdded c d other area' facts' → other ≢ key }
    ensures for_good { (a b c d e : HubValue) (key : HubKey) (area : Area) (facts : WatcherFacts) (calls later : List Call) (answer : Option WatcherFacts)
        → IsWatcherAdded a b key area facts → MakeAll b calls c → Removes c d key answer → MakeAll d later e → member_at e key ≡ None }
{}
