//! Tell: a member says something to another.
ghost use Rattle.std.specs.Prelude.{◌≤◌, length};
ghost use Rattle.fics_words.specs.Effect.{Takes};
ghost use Rattle.fics_words.specs.Line.{most_text_bytes};
ghost use Rattle.lobby_state.specs.Tell.{tell_effect};

use crate::acts::LobbyReply;
use crate::member::add_line;
use crate::roster::Roster;
use crate::said::said_line;
use fics_words::{Fail, HandleKey, Line, Refusal};

impl Roster {
    /// The member says the text to the named player. The causes of a refusal, in order: the session isn't a member;
    /// nobody has the handle, or that member is going; the other has the member on its censor list; 512 lines wait for
    /// the other.
    pub(crate) fn tell(
        &mut self,
        session: u32,
        to: HandleKey,
        text: &Line,
    ) -> Result<LobbyReply, Fail>
        requires { length text.now ≤ most_text_bytes }
        ensures { Takes (tell_effect self.old session to text.now) self.old self.new result }
    {
        let Some(caller) = self.member(session) else {
            return Err(Fail::Refused(Refusal::NotIn));
        };
        let Some(other) = self.named(to) else {
            return Err(Fail::Refused(Refusal::NoSuchPlayer));
        };
        if other.censors(caller) {
            return Err(Fail::Refused(Refusal::Refuses));
        }
        if other.is_full() {
            return Err(Fail::Refused(Refusal::QueueFull));
        }
        let line = said_line(self.alloc, caller.name, b" tells you: ", text.bytes())?;
        add_line(&mut self.members, to, line)?;
        Ok(LobbyReply::Told(1))
    }
}
