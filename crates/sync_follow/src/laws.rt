//! What feeds are that are read, and what following is for. These functions do nothing: they are called, if at all, for their
//! clauses.

ghost use Rattle.std.specs.Prelude.{List, ℕ, [], ◌∷◌};
ghost use Rattle.willow_area.specs.declared.area.Area.{Area};
ghost use Rattle.session_rules.specs.Reading.{Shows, Done, More, BadMessage};
ghost use Rattle.sync_follow.specs.Following.{feed_of};
ghost use Rattle.sync_follow.specs.FeedLaws.{FeedsAreRead, WholeFeedsAreFeeds};
ghost use Rattle.sync_follow.specs.Followed.{FollowingCovers};
ghost use Rattle.sync_follow.specs.FollowedOnce.{OneIsFollowed};

/// No rows and their end; a wrong number; a first byte alone; a byte that begins nothing.
#[tactic(auto, unfolding(session_rules::specs::Reading::run, crate::specs::Grammar::feed_seen, crate::specs::Grammar::text_in_feed, crate::specs::Grammar::behind_kind, crate::specs::Grammar::framed_at, crate::specs::Grammar::stop_at, spelling::specs::Reading::exactly_at, spelling::specs::Reading::text_at, sync_msg::specs::ItemReading::body_at))]
pub fn small_feeds()
    ensures none { (area : Area) → Shows (feed_of area) (11 ∷ 0 ∷ 0 ∷ 0 ∷ 0 ∷ []) [] [] Done }
    ensures wrong { (area : Area) → Shows (feed_of area) (11 ∷ 0 ∷ 0 ∷ 0 ∷ 1 ∷ []) [] [] (BadMessage 0) }
    ensures part { (area : Area) → Shows (feed_of area) (10 ∷ []) [] [] More }
    ensures other { (area : Area) → Shows (feed_of area) (12 ∷ []) [] [] (BadMessage 0) }
{}

/// A feed of rows inside of the area is read as just these rows, and one who follows is done with its last byte. Bytes with which
/// one is done begin with the feed of the rows that were read, and there is no other feed that they begin with.
pub fn reads_feeds()
    ensures read { FeedsAreRead }
    ensures whole { WholeFeedsAreFeeds }
{}

/// Where two sessions that are each the other end of the other are done, and the feed behind the one and the follow behind the
/// other, the caller's store covers each row of the server's store in the area that both may read, up to where the feed went.
pub fn following_covers<H, P, A, F, X, T, I, G, C>()
    ensures { FollowingCovers H P A F X T I G C }
{}

/// There is such a run: one row came into the server's log behind the session, is fed, and is followed.
pub fn one_is_followed()
    ensures { OneIsFollowed }
{}
