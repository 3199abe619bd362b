//! Fetch: a session takes the lines that wait for it, and asks for its places.
ghost use Rattle.std.specs.Prelude.{Ok};
ghost use Rattle.fics_words.specs.Effect.{Takes};
ghost use Rattle.lobby_state.specs.Fetch.{fetch_effect};

use crate::acts::LobbyReply;
use crate::member::take_lines;
use crate::roster::Roster;

impl Roster {
    /// The lines that wait for the session, which are taken, and its places. It takes no memory and is never refused.
    pub(crate) fn fetch(&mut self, session: u32) -> LobbyReply
        ensures { Takes (fetch_effect self.old session) self.old self.new (Ok result) }
    {
        let places = self.places(session);
        let lines = take_lines(self.alloc, &mut self.members, session);
        LobbyReply::Waiting { lines, places }
    }
}
