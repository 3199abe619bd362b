//! How much of the shelf is taken.
ghost use Rattle.std.specs.Prelude.{◌≡◌, ◌≤◌, false};
ghost use Rattle.fics_words.specs.Effect.{Takes};
ghost use Rattle.game_records.specs.Replays.{Replays};
ghost use Rattle.lobby_shelf.specs.Numbers.{is_used};
ghost use Rattle.lobby_state.specs.ShelfRoom.{desks_used, is_shelf_full, storing_effect};

use crate::roster::Roster;
use fics_words::{Fail, Refusal};
use lobby_shelf::{MOST_STORED, StoredGame};

impl Roster {
    /// Whether stored games and desks in use are 10,000 together, so that one game more that starts couldn't be
    /// adjourned.
    pub(crate) fn is_shelf_full(&self) -> bool
        ensures { result ≡ is_shelf_full self.now }
    {
        self.shelf.games().len() + self.desks_used() >= MOST_STORED
    }

    /// Puts a game that was kept elsewhere on the shelf, under its number there, and makes no order. Refused where
    /// stored games and desks in use are 10,000 together.
    pub(crate) fn add_stored(&mut self, number: u64, game: StoredGame) -> Result<(), Fail>
        requires positive { 1 ≤ number }
        requires unused { is_used self.old.shelf.games number ≡ false }
        requires replays { Replays game }
        ensures { Takes (storing_effect self.old number game) self.old self.new result }
    {
        if self.is_shelf_full() {
            return Err(Fail::Refused(Refusal::ShelfFull));
        }
        self.shelf.add(number, game);
        Ok(())
    }

    /// How many desks are in use.
    fn desks_used(&self) -> usize
        ensures { result ≡ desks_used self.now.games }
    {
        self.games.iter().filter(|game| game.is_some()).count()
    }
}
