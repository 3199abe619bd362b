//! Withdraw: a member takes a challenge back.
ghost use Rattle.std.specs.Prelude.{◌≡◌};
ghost use Rattle.fics_words.specs.Effect.{Takes};
ghost use Rattle.lobby_state.specs.Withdraw.{own_of, withdraw_effect};

use crate::acts::LobbyReply;
use crate::roster::Roster;
use fics_words::{Fail, HandleKey, Refusal};
use seek_match::Challenge;

impl Roster {
    /// The session's challenge to the named player, or without a name its oldest one, goes. It takes no memory. The
    /// causes of a refusal, in order: the session isn't a member; there is no such challenge.
    pub(crate) fn withdraw(
        &mut self,
        session: u32,
        name: Option<HandleKey>,
    ) -> Result<LobbyReply, Fail>
        ensures { Takes (withdraw_effect self.old session name) self.old self.new result }
    {
        if self.member(session).is_none() {
            return Err(Fail::Refused(Refusal::NotIn));
        }
        let Some(own) = self.own_challenge(session, name) else {
            return Err(Fail::Refused(Refusal::NoChallenge));
        };
        self.challenges.remove(own.from, own.to);
        Ok(LobbyReply::Done)
    }

    /// The session's challenge to the named player, and without a name its oldest.
    fn own_challenge(&self, session: u32, name: Option<HandleKey>) -> Option<Challenge>
        ensures { result ≡ own_of self.now session name }
    {
        let Some(key) = name else {
            return self.challenges.find_by(session);
        };
        let Some(other) = self.named(key) else {
            return None;
        };
        self.challenges.find(Some(session), other.session)
    }
}
