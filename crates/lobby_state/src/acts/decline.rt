//! Decline: a member turns a challenge down.
ghost use Rattle.fics_words.specs.Effect.{Takes};
ghost use Rattle.lobby_state.specs.Decline.{decline_effect};

use crate::acts::LobbyReply;
use crate::roster::Roster;
use fics_words::{Fail, HandleKey, Refusal};

impl Roster {
    /// The challenge by the named player to the session, or without a name the oldest one to it, goes, and its
    /// challenger is told, where fewer than 512 lines wait there. The causes of a refusal, in order: the session isn't
    /// a member; there is no such challenge.
    pub(crate) fn decline(
        &mut self,
        session: u32,
        name: Option<HandleKey>,
    ) -> Result<LobbyReply, Fail>
        ensures { Takes (decline_effect self.old session name) self.old self.new result }
    {
        let Some(caller) = self.member(session) else {
            return Err(Fail::Refused(Refusal::NotIn));
        };
        let Some(offer) = self.offer(session, name) else {
            return Err(Fail::Refused(Refusal::NoChallenge));
        };
        let name = caller.name;
        self.say_to(offer.from, name, b" declines your challenge.", b"")?;
        self.challenges.remove(offer.from, offer.to);
        Ok(LobbyReply::Done)
    }
}
