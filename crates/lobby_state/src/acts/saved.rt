//! Saved: a steward tells which save orders a store has carried out.
ghost use Rattle.std.specs.Prelude.{Ok};
ghost use Rattle.fics_words.specs.Effect.{Takes};
ghost use Rattle.lobby_state.specs.Saved.{saved_effect};

use crate::acts::LobbyReply;
use crate::roster::Roster;

impl Roster {
    /// The save orders up to that number are gone. It takes no memory and is never refused.
    pub(crate) fn saved(&mut self, upto: u64) -> LobbyReply
        ensures { Takes (saved_effect self.old upto) self.old self.new (Ok result) }
    {
        self.shelf.saved(upto);
        LobbyReply::Done
    }
}
