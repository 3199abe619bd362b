//! Games on the shelf.
ghost use Rattle.std.specs.Prelude.{◌≡◌};
ghost use Rattle.lobby_shelf.specs.Players.{all_others};

use collections::Predicate;
use fics_words::{Handle, HandleKey};
use game_records::StoredGame;

/// A game that waits to be resumed, under the number by which the store knows it.
#[derive(Drop)]
pub struct Shelved {
    /// From 1 on.
    pub number: u64,
    pub game: StoredGame,
}

impl Shelved {
    /// Whether all players of the game pass the test but the one of this handle, who needn't: as those do who ask to
    /// resume it, so that it goes on.
    pub fn all_others<P: Predicate<Handle>>(&self, own: HandleKey, test: &P) -> bool
        ensures { result ≡ all_others own (P.passes test.now) self.now.game }
    {
        self.game
            .names
            .iter()
            .all(|name| name.key() == own || test.passes(name))
    }
}
