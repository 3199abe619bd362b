//! Where: a session asks for its places.
ghost use Rattle.std.specs.Prelude.{Ok};
ghost use Rattle.fics_words.specs.Effect.{Takes};
ghost use Rattle.lobby_state.specs.Where.{where_effect};

use crate::acts::LobbyReply;
use crate::roster::Roster;

impl Roster {
    /// The session's places. It takes no memory and is never refused.
    pub(crate) fn where_is(&self, session: u32) -> LobbyReply
        ensures { Takes (where_effect self.now session) self.now self.now (Ok result) }
    {
        LobbyReply::Places(self.places(session))
    }
}
