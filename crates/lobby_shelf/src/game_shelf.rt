//! The shelf, and the look-ups in it.
ghost use Rattle.std.specs.Prelude.{◌≡◌, option_copied};
ghost use Rattle.game_records.specs.Replays.{Replays};
ghost use Rattle.lobby_shelf.specs.Numbers.{stored_game};
ghost use Rattle.lobby_shelf.specs.Players.{least_of, of_player};

use crate::cells::Cells;
use crate::games_of::GamesOf;
use crate::order::Order;
use crate::rack::Rack;
use crate::request::Request;
use crate::shelved::Shelved;
use fics_words::HandleKey;
use game_records::StoredGame;
use memory::NoMemory;
use std::alloc::Global;
use std::marker::Model;

/// The games that wait to be resumed, the save orders that aren't told as saved yet, and who asks to resume which game.
pub struct GameShelf {
    pub(crate) alloc: Global,
    pub(crate) games: Rack,
    pub(crate) orders: Cells<Order>,
    /// How many orders were made, which is the number of the last one.
    pub(crate) made: u64,
    pub(crate) requests: Cells<Request>,
}

// One call for who drops a shelf: a derived destructor is proved again in each crate above, with those of its parts.
impl Drop for GameShelf {
    fn drop(self) {
        let GameShelf {
            alloc: _,
            games,
            orders,
            made: _,
            requests,
        } = self;
        drop(games);
        drop(orders);
        drop(requests);
    }
}

impl Model for GameShelf {
    ghost use Rattle.lobby_shelf.specs.Shelf.{ShelfState};
    ghost use Rattle.lobby_shelf.specs.Facts.{IsShelf};

    ghost Value = { ShelfState };

    ghost view = { λ shelf. record {
      games = shelf.games;
      orders = shelf.orders;
      made = shelf.made;
      requests = shelf.requests;
    } };

    ghost invariant = { λ shelf. IsShelf (record {
      games = shelf.games;
      orders = shelf.orders;
      made = shelf.made;
      requests = shelf.requests;
    }) };
}

impl GameShelf {
    ghost use Rattle.std.specs.Prelude.{◌≡◌, IfOk, IfSome, option_copied};
    ghost use Rattle.game_records.specs.Replays.{Replays};
    ghost use Rattle.lobby_shelf.specs.Shelf.{empty};
    ghost use Rattle.lobby_shelf.specs.Facts.{IsShelf};
    ghost use Rattle.lobby_shelf.specs.Numbers.{stored_game};
    ghost use Rattle.lobby_shelf.specs.Players.{least_of, of_player};

    /// An empty shelf, with the room for 10,000 games. It fails only when out of memory.
    pub fn new(alloc: Global) -> Result<GameShelf, NoMemory>
        ensures { IfOk result (λ shelf. shelf ≡ empty) }
    {
        Ok(GameShelf {
            alloc,
            games: Rack::new(alloc)?,
            orders: Cells::new(alloc),
            made: 0,
            requests: Cells::new(alloc),
        })
    }

    /// The stored games, in the order of their numbers.
    pub fn games(&self) -> &[Shelved]
        ensures games { result.now ≡ self.now.games }
        ensures shelf { IsShelf self.now }
    {
        self.games.rows()
    }

    /// How many orders were made, which is the number of the last one.
    pub fn made(&self) -> u64
        ensures { result ≡ self.now.made }
    {
        self.made
    }

    /// The stored game of that number, if there is one.
    pub fn stored(&self, number: u64) -> Option<&StoredGame>
        ensures { option_copied result ≡ stored_game self.now.games number }
    {
        let row = self.games.get(number)?;
        Some(&row.game)
    }

    /// The games that the handle with this key plays in, in the order of their numbers, given one after another.
    pub fn of_player(&self, key: HandleKey) -> GamesOf<'_>
        ensures { result ≡ of_player key self.now.games }
    {
        GamesOf::all(&self.games, key, key)
    }

    /// The stored game of least number that has both handles among its players, if there is one.
    pub fn least_of(&self, one: HandleKey, other: HandleKey) -> Option<&Shelved>
        ensures row { option_copied result ≡ least_of self.now.games one other }
        ensures replays { IfSome result (λ row. Replays row.now.game) }
    {
        GamesOf::all(&self.games, one, other).next()
    }
}
