//! SimNext: a giver goes to the next of its places, in a circle.
ghost use Rattle.fics_words.specs.Effect.{Takes};
ghost use Rattle.lobby_state.specs.SimNext.{sim_next_effect};

use crate::acts::LobbyReply;
use crate::roster::Roster;
use fics_words::{Fail, Refusal};
use simul_control::Direction;

impl Roster {
    /// The next place of the session is its present one. The causes of a refusal, in order: the session isn't a member;
    /// it gives no simul, or has no place. It takes no memory.
    pub(crate) fn sim_next(&mut self, session: u32) -> Result<LobbyReply, Fail>
        ensures { Takes (sim_next_effect self.old session) self.old self.new result }
    {
        let Some(caller) = self.member(session) else {
            return Err(Fail::Refused(Refusal::NotIn));
        };
        let mut places = caller.places;
        places.turn(Direction::Next)?;
        self.put_places(session, places);
        Ok(LobbyReply::Done)
    }
}
