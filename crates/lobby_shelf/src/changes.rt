//! Games that go on the shelf and off it, and the save orders.
ghost use Rattle.std.specs.Prelude.{◌≡◌, ◌+◌, ◌<◌, ◌≤◌, ◌^◌, false, IfOk, length};
ghost use Rattle.game_records.specs.Replays.{Replays};
ghost use Rattle.lobby_shelf.specs.Numbers.{is_used};
ghost use Rattle.lobby_shelf.specs.Shelf.{game_order, most_stored, ordered, orders_told, removal_order, saved, shelved, taken_off, with_stored};
ghost use Rattle.lobby_shelf.specs.Facts.{HasRoom};

use crate::asking::NotFor;
use crate::game_shelf::GameShelf;
use crate::order::{Order, Unsaved};
use crate::saving::{GameSaving, Saving};
use collections::Listed;
use game_records::StoredGame;
use memory::NoMemory;

/// How many orders are told at once.
pub const ORDERS_AT_ONCE: usize = 16;

impl GameShelf {
    /// Puts a game that was kept elsewhere on the shelf, under the number that it has there, and makes no order: the
    /// store has it already.
    pub fn add(&mut self, number: u64, game: StoredGame)
        requires positive { 1 ≤ number }
        requires unused { is_used self.old.games number ≡ false }
        requires room { length self.old.games < most_stored }
        requires replays { Replays game }
        ensures { self.new ≡ with_stored self.old number game }
    {
        self.games.insert(number, game);
    }

    /// Puts an order behind those that stand, and takes no memory.
    pub fn order(&mut self, saving: Saving)
        requires next { saving.number ≡ self.old.made + 1 }
        requires count { self.old.made + 1 < 2 ^ 64 }
        requires room { HasRoom self.old.orders }
        ensures { self.new ≡ ordered self.old saving }
    {
        let Saving { cell } = saving;
        self.orders.append(cell);
        self.made += 1;
    }

    /// Puts a game on the shelf, under the least positive number that no stored game has, with the order that puts it
    /// into the store. It takes no memory.
    pub fn shelve(&mut self, saving: GameSaving)
        requires order { saving.order ≡ game_order self.old saving.game }
        requires count { self.old.made + 1 < 2 ^ 64 }
        requires room { HasRoom self.old.orders }
        requires place { length self.old.games < most_stored }
        requires replays { Replays saving.game }
        ensures { self.new ≡ shelved self.old saving.game }
    {
        let GameSaving { game, order } = saving;
        let number = self.games.next_number();
        self.games.insert(number, game);
        let Saving { cell } = order;
        self.orders.append(cell);
        self.made += 1;
    }

    /// Takes the game of that number off the shelf, with the requests for it and with the order that removes it from
    /// the store. It takes no memory.
    pub fn take_off(&mut self, number: u64, saving: Saving)
        requires order { saving ≡ removal_order self.old number }
        requires count { self.old.made + 1 < 2 ^ 64 }
        requires room { HasRoom self.old.orders }
        ensures { self.new ≡ taken_off self.old number }
    {
        self.games.remove(number);
        self.requests.retain(&NotFor(number));
        let Saving { cell } = saving;
        self.orders.append(cell);
        self.made += 1;
    }

    /// Copies of the first 16 orders, or of all where there are no more.
    pub fn orders_told(&self) -> Result<Listed<Order>, NoMemory>
        ensures { IfOk result (λ orders. orders ≡ orders_told self.now) }
    {
        self.orders.first(ORDERS_AT_ONCE)
    }

    /// Takes the orders up to that number away, which a store has carried out.
    pub fn saved(&mut self, upto: u64)
        ensures { self.new ≡ saved self.old upto }
    {
        self.orders.retain(&Unsaved(upto));
    }
}
