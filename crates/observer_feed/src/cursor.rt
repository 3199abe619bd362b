//! A viewer of a feed, and how it is found and moved.
ghost use Rattle.std.specs.Prelude.{◌≡◌, ◌==◌, not};
ghost use Rattle.observer_feed.specs.Feed.{first_place};

use collections::{Change, Predicate};

/// A viewer of a feed: its session, and how many items of the feed it has been given.
#[derive(Clone, Copy)]
pub struct Cursor {
    pub session: u32,
    pub seen: usize,
}

/// Which items a new viewer is given.
#[derive(Clone, Copy)]
pub enum Backlog {
    /// All that the feed has, and all that comes.
    FromStart,
    /// What comes from now on.
    FromNow,
}

impl Backlog {
    /// The place in a feed of so many items at which a viewer begins.
    pub(crate) fn first_place(self, count: usize) -> usize
        ensures { result ≡ first_place self count }
    {
        match self {
            Backlog::FromStart => 0,
            Backlog::FromNow => count,
        }
    }
}

/// The cursor of a session.
#[derive(Clone, Copy)]
pub(crate) struct OfSession(pub(crate) u32);

impl Predicate<Cursor> for OfSession {
    ghost passes = { λ test cursor. cursor.session == test.0 };

    fn passes(&self, cursor: &Cursor) -> bool {
        cursor.session == self.0
    }
}

/// The cursors of the other sessions.
#[derive(Clone, Copy)]
pub(crate) struct OfOthers(pub(crate) u32);

impl Predicate<Cursor> for OfOthers {
    ghost passes = { λ test cursor. not (cursor.session == test.0) };

    fn passes(&self, cursor: &Cursor) -> bool {
        cursor.session != self.0
    }
}

/// Moves the cursor of a session to a place of the feed.
#[derive(Clone, Copy)]
pub(crate) struct CatchUp {
    pub(crate) session: u32,
    pub(crate) seen: usize,
}

impl Change<Cursor> for CatchUp {
    ghost use Rattle.observer_feed.specs.Feed.{caught_up};

    ghost changed = { λ change cursor. caught_up change.session change.seen cursor };

    fn change(&self, cursor: &mut Cursor) {
        if cursor.session == self.session {
            cursor.seen = self.seen;
        }
    }
}
