//! Bye: a session is gone.
ghost use Rattle.std.specs.Prelude.{Ok};
ghost use Rattle.fics_words.specs.Effect.{Takes};
ghost use Rattle.lobby_state.specs.Bye.{bye_effect};

use crate::acts::LobbyReply;
use crate::roster::Roster;

impl Roster {
    /// The session is gone, with every challenge, every seek, every request and the link that still names it, and is in
    /// no channel. It takes no memory and is never refused.
    pub(crate) fn bye(&mut self, session: u32) -> LobbyReply
        ensures { Takes (bye_effect self.old session) self.old self.new (Ok result) }
    {
        self.members.remove(session);
        self.challenges.forget(session);
        self.seeks.forget(session);
        self.channels.forget(session);
        self.partners.forget(session);
        self.shelf.forget(session);
        LobbyReply::Done
    }
}
