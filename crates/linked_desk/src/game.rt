//! The game at a desk.
ghost use Rattle.std.specs.Prelude.{◌≡◌, ◌<◌, IfSome, length};

use crate::ended::Ended;
use crate::tally::Tally;
use chess_model::Terms;
use clock_ledger::Moment;
use desk_boards::Boards;
use fics_words::Seats;
use observer_feed::Feed;
use offer_book::Offers;
use std::alloc::Global;
use std::marker::Model;
use style12_writer::Item;

/// How many items the end of a game may add to the feed. The feed has this room while the game runs.
pub(crate) const ROOM_TO_END: usize = 4;

/// A game at a desk: the players, the boards, the feed and its viewers.
pub(crate) struct Game {
    pub(crate) alloc: Global,
    pub(crate) serial: u64,
    pub(crate) terms: Terms,
    pub(crate) seats: Seats,
    pub(crate) boards: Boards,
    pub(crate) feed: Feed<Item>,
    pub(crate) remarks: u16,
    pub(crate) last: Moment,
    pub(crate) ended: Option<Ended>,
    pub(crate) offers: Offers,
    pub(crate) tally: Tally,
}

// One call for who drops a game, in place of the destructors of its parts.
impl Drop for Game {
    fn drop(self) {
        let Game {
            alloc: _,
            serial: _,
            terms: _,
            seats: _,
            boards,
            feed,
            remarks: _,
            last: _,
            ended: _,
            offers,
            tally,
        } = self;
        drop(boards);
        drop(feed);
        drop(offers);
        drop(tally);
    }
}

impl Model for Game {
    ghost use Rattle.linked_desk.specs.Desk.{GameState};

    ghost Value = { GameState };

    ghost use Rattle.linked_desk.specs.Holds.{HoldsGame};

    ghost view = { λ g. record {
      serial = g.serial;
      terms = g.terms;
      seats = g.seats;
      boards = g.boards;
      feed = g.feed.items;
      viewers = g.feed.viewers;
      remarks = g.remarks;
      last = g.last;
      ended = g.ended;
      offers = g.offers;
      tally = g.tally;
    } };

    ghost invariant = { HoldsGame };
}

impl Game {
    ghost use Rattle.linked_desk.specs.Desk.{seat_of, is_watching, ahead_of, are_registered};
    ghost use Rattle.observer_feed.specs.Feed.{is_left};

    /// The number under which the game was started.
    pub(crate) fn serial(&self) -> u64
        ensures { result ≡ self.now.serial }
    {
        self.serial
    }

    /// The boards.
    pub(crate) fn boards(&self) -> &Boards
        ensures { result.now ≡ self.now.boards }
    {
        &self.boards
    }

    /// How the game ended, or None while it runs.
    pub(crate) fn ended(&self) -> Option<Ended>
        ensures { result ≡ self.now.ended }
    {
        self.ended
    }

    /// How many viewers the game has.
    pub(crate) fn viewers(&self) -> usize
        ensures { result ≡ length self.now.viewers }
    {
        self.feed.viewers()
    }

    /// Whether nobody looks on any more.
    pub(crate) fn is_left(&self) -> bool
        ensures { result ≡ is_left self.now.viewers }
    {
        self.feed.is_left()
    }

    /// The seat of a session, if it plays.
    pub(crate) fn seat_of(&self, session: u32) -> Option<u8>
        ensures value { result ≡ seat_of self.now session }
        ensures seated { IfSome result (λ seat. seat < self.now.offers.seats) }
    {
        self.seats.number(session)
    }

    /// Whether each player has an account.
    pub(crate) fn all_registered(&self) -> bool
        ensures { result ≡ are_registered self.now }
    {
        self.seats.all_registered()
    }

    /// Whether a session is a viewer of the game.
    pub(crate) fn is_watching(&self, session: u32) -> bool
        ensures { result ≡ is_watching self.now session }
    {
        self.feed.has(session)
    }

    /// The items past the cursor of a session, none where it is no viewer.
    pub(crate) fn ahead(&self, session: u32) -> &[Item]
        ensures { result.now ≡ ahead_of self.now session }
    {
        self.feed.ahead(session)
    }
}
