//! Play: a seek is taken, and the plan of its game is told.
ghost use Rattle.std.specs.Prelude.{◌≡◌};
ghost use Rattle.fics_words.specs.Effect.{answer_of};
ghost use Rattle.lobby_state.specs.Play.{play_effect};

use crate::acts::Plan;
use crate::roster::Roster;
use fics_words::Refusal;

impl Roster {
    /// What the taking of a seek is to do. The causes of a refusal, in order: the session isn't a member; no seek has
    /// the number; it is the session's own; one of the two has a place and gives no simul; the seek's player has the
    /// member on one of its lists; and then those of a game of the two.
    pub(crate) fn play_plan(&self, session: u32, number: u16) -> Result<Plan, Refusal>
        ensures { result ≡ answer_of (play_effect self.now session number) }
    {
        let Some(accepting) = self.member(session) else {
            return Err(Refusal::NotIn);
        };
        let Some(seek) = self.seeks.get(number) else {
            return Err(Refusal::NoSuchSeek);
        };
        let Some(offering) = self.member(seek.by) else {
            return Err(Refusal::NoSuchSeek);
        };
        if offering.session == session {
            return Err(Refusal::BadOpponent);
        }
        if self.are_playing(offering, accepting, seek.terms) {
            return Err(Refusal::Playing);
        }
        if offering.avoids(accepting) {
            return Err(Refusal::Refuses);
        }
        self.start_plan(accepting, offering, seek.terms)
    }
}
