//! Shout: a member says something to all others who want to hear it.
ghost use Rattle.std.specs.Prelude.{◌≤◌, length};
ghost use Rattle.fics_words.specs.Effect.{Takes};
ghost use Rattle.fics_words.specs.Line.{most_text_bytes};
ghost use Rattle.lobby_state.specs.Shout.{hears_shouts, shout_effect};

use crate::acts::LobbyReply;
use crate::member::Member;
use crate::roster::Roster;
use collections::Predicate;
use fics_words::{Fail, Line, Refusal};

/// A member of another session who wants to hear what others shout.
#[derive(Clone, Copy)]
struct HearsShouts(u32);

impl Predicate<Member> for HearsShouts {
    ghost passes = { λ test member. hears_shouts test.0 member };

    fn passes(&self, member: &Member) -> bool {
        member.session != self.0 && member.wants.shouts
    }
}

impl Roster {
    /// The member says the text to all others who want to hear it. It is refused where the session isn't a member.
    pub(crate) fn shout(&mut self, session: u32, text: &Line) -> Result<LobbyReply, Fail>
        requires { length text.now ≤ most_text_bytes }
        ensures { Takes (shout_effect self.old session text.now) self.old self.new result }
    {
        let Some(caller) = self.member(session) else {
            return Err(Fail::Refused(Refusal::NotIn));
        };
        let name = caller.name;
        let told = self.say(&HearsShouts(session), name, b" shouts: ", text.bytes())?;
        Ok(LobbyReply::Told(told))
    }
}
