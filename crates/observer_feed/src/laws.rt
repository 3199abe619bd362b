//! What looking on means, as calls that do nothing: each says by its contract what was proved.
ghost use Rattle.std.specs.Prelude.{length};
ghost use Rattle.observer_feed.specs.Feed.{ArePlaces};
ghost use Rattle.observer_feed.specs.Laws.{BeginsAndEnds, MissesNothing};

use crate::feed::Feed;

/// Who looks on, and doesn't cease to, is given each item exactly once and in order, whatever is done: what its
/// fetches give, one after another, and what it hasn't been given at the end, are what it hadn't been given at the
/// beginning and then every item that was added.
pub fn viewers_miss_nothing<T>(feed: &Feed<T>, session: u32)
    ensures { MissesNothing feed.now session }
{
    let _ = &feed.viewers;
}

/// Who begins to look on from the start has every item to come, and who begins now none of those that are there; who
/// ceases is no viewer, and every other session is one exactly where it was.
pub fn looking_on_begins_and_ends<T>(feed: &Feed<T>, session: u32)
    ensures { BeginsAndEnds feed.now session }
{}

/// A session is one viewer at most, and no viewer has been given more items than there are.
pub fn viewers_have_one_place<T>(feed: &Feed<T>)
    ensures { ArePlaces (length feed.now.items) feed.now.viewers }
{
    let _ = &feed.viewers;
}
