//! SimPrev: a giver goes to the previous of its places, in a circle.
ghost use Rattle.fics_words.specs.Effect.{Takes};
ghost use Rattle.lobby_state.specs.SimPrev.{sim_prev_effect};

use crate::acts::LobbyReply;
use crate::roster::Roster;
use fics_words::{Fail, Refusal};
use simul_control::Direction;

impl Roster {
    /// The previous place of the session is its present one. The causes of a refusal, in order: the session isn't a
    /// member; it gives no simul, or has no place. It takes no memory.
    pub(crate) fn sim_prev(&mut self, session: u32) -> Result<LobbyReply, Fail>
        ensures { Takes (sim_prev_effect self.old session) self.old self.new result }
    {
        let Some(caller) = self.member(session) else {
            return Err(Fail::Refused(Refusal::NotIn));
        };
        let mut places = caller.places;
        places.turn(Direction::Previous)?;
        self.put_places(session, places);
        Ok(LobbyReply::Done)
    }
}
