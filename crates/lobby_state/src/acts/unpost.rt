//! Unpost: a member takes back a seek, or all its seeks.
ghost use Rattle.fics_words.specs.Effect.{Takes};
ghost use Rattle.lobby_state.specs.Unpost.{unpost_effect};

use crate::acts::LobbyReply;
use crate::roster::Roster;
use fics_words::{Fail, Refusal};

impl Roster {
    /// The session's seek of that number goes, or without a number all its seeks. The causes of a refusal, in order:
    /// the session isn't a member; it has no such seek. It takes no memory.
    pub(crate) fn unpost(&mut self, session: u32, number: Option<u16>) -> Result<LobbyReply, Fail>
        ensures { Takes (unpost_effect self.old session number) self.old self.new result }
    {
        if self.member(session).is_none() {
            return Err(Fail::Refused(Refusal::NotIn));
        }
        self.seeks.remove(session, number)?;
        Ok(LobbyReply::Done)
    }
}
