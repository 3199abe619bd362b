//! What a change of the shelf needs of memory, prepared beside it.
ghost use Rattle.std.specs.Prelude.{◌≡◌, ◌+◌, ◌<◌, ◌≤◌, ◌^◌, IfOk, Option};
ghost use Rattle.game_records.specs.Replays.{Replays};
ghost use Rattle.lobby_shelf.specs.Shelf.{account_order, game_order, next_order, removal_order};
ghost use Rattle.lobby_shelf.specs.Facts.{HasRoom};

use crate::cells::Cells;
use crate::game_shelf::GameShelf;
use crate::order::Order;
use fics_words::Account;
use game_records::{Bytes, Record, StoredGame, account_key, game_key, write_record};
use memory::NoMemory;
use std::marker::Model;

/// The save order that a change makes, in a cell of its own. Contracts see the order.
#[derive(Drop)]
pub struct Saving {
    pub(crate) cell: Cells<Order>,
}

impl Model for Saving {
    ghost use Rattle.std.specs.Prelude.{◌≡◌, length};
    ghost use Rattle.lobby_shelf.specs.declared.order.Order.{Order};
    ghost use Rattle.lobby_shelf.specs.Held.{held_order};

    ghost Value = { Order };

    ghost view = { λ saving. held_order saving.cell };

    ghost invariant = { λ saving. length saving.cell ≡ 1 };
}

/// A game that is to go on the shelf, with its save order.
#[derive(Drop)]
pub struct GameSaving {
    pub game: StoredGame,
    pub order: Saving,
}

impl GameShelf {
    /// The order that puts an account into the store. It fails only when out of memory.
    pub fn saving_of_account(&self, account: &Account) -> Result<Saving, NoMemory>
        requires count { self.now.made + 1 < 2 ^ 64 }
        ensures order { IfOk result (λ saving. saving ≡ account_order self.now account.now) }
        ensures room { IfOk result (λ saving. HasRoom self.now.orders) }
    {
        let key = account_key(self.alloc, account.name.key())?;
        let bytes = write_record(self.alloc, &Record::Account(*account))?;
        self.saving(key, Some(bytes))
    }

    /// The order that puts a game into the store, under the number that it gets on the shelf, with the game. It fails
    /// only when out of memory.
    pub fn saving_of_game(&self, game: StoredGame) -> Result<GameSaving, NoMemory>
        requires count { self.now.made + 1 < 2 ^ 64 }
        requires replays { Replays game }
        ensures game { IfOk result (λ saving. saving.game ≡ game) }
        ensures order { IfOk result (λ saving. saving.order ≡ game_order self.now game) }
        ensures room { IfOk result (λ saving. HasRoom self.now.orders) }
    {
        let record = Record::Game(game);
        let key = game_key(self.alloc, self.games.next_number())?;
        let bytes = write_record(self.alloc, &record)?;
        let order = self.saving(key, Some(bytes))?;
        let Record::Game(game) = record else {
            unreachable!()
        };
        Ok(GameSaving { game, order })
    }

    /// The order that removes the game of that number from the store. It fails only when out of memory.
    pub fn saving_of_removal(&self, number: u64) -> Result<Saving, NoMemory>
        requires count { self.now.made + 1 < 2 ^ 64 }
        requires positive { 1 ≤ number }
        ensures order { IfOk result (λ saving. saving ≡ removal_order self.now number) }
        ensures room { IfOk result (λ saving. HasRoom self.now.orders) }
    {
        let key = game_key(self.alloc, number)?;
        self.saving(key, None)
    }

    /// The order that is made next.
    fn saving(&self, key: Bytes, bytes: Option<Bytes>) -> Result<Saving, NoMemory>
        requires count { self.now.made + 1 < 2 ^ 64 }
        ensures order { IfOk result (λ saving. saving ≡ next_order self.now key bytes) }
        ensures room { IfOk result (λ saving. HasRoom self.now.orders) }
    {
        let order = Order {
            number: self.made + 1,
            key,
            bytes,
        };
        Ok(Saving {
            cell: self.orders.cell(order)?,
        })
    }
}
