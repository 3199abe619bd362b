//! SimOpen: a member begins to give a simul, or ends it.
ghost use Rattle.fics_words.specs.Effect.{Takes};
ghost use Rattle.lobby_state.specs.SimOpen.{sim_open_effect};

use crate::acts::LobbyReply;
use crate::roster::Roster;
use fics_words::{Fail, Refusal};

impl Roster {
    /// The session begins to give a simul, or ends it. The causes of a refusal, in order: the session isn't a member;
    /// it has a place as it would begin, or two or more as it would end. It takes no memory.
    pub(crate) fn sim_open(&mut self, session: u32) -> Result<LobbyReply, Fail>
        ensures { Takes (sim_open_effect self.old session) self.old self.new result }
    {
        let Some(caller) = self.member(session) else {
            return Err(Fail::Refused(Refusal::NotIn));
        };
        let mut places = caller.places;
        places.switch()?;
        self.put_places(session, places);
        Ok(LobbyReply::Done)
    }
}
