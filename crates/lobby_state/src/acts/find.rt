//! Find: a member asks where a player plays.
ghost use Rattle.fics_words.specs.Effect.{Takes};
ghost use Rattle.lobby_state.specs.Find.{find_effect};

use crate::acts::LobbyReply;
use crate::roster::Roster;
use fics_words::{Fail, HandleKey, Refusal};

impl Roster {
    /// The present place of the named player. The causes of a refusal, in order: the session isn't a member; nobody
    /// has the handle, or that member is going; it has no place. It takes no memory.
    pub(crate) fn find(&self, session: u32, name: HandleKey) -> Result<LobbyReply, Fail>
        ensures { Takes (find_effect self.now session name) self.now self.now result }
    {
        if self.member(session).is_none() {
            return Err(Fail::Refused(Refusal::NotIn));
        }
        let Some(player) = self.named(name) else {
            return Err(Fail::Refused(Refusal::NoSuchPlayer));
        };
        let Some(place) = player.places.present() else {
            return Err(Fail::Refused(Refusal::NotPlaying));
        };
        Ok(LobbyReply::Found(place))
    }
}
