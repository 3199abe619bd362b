//! Channel: a member joins or leaves a channel.
ghost use Rattle.std.specs.Prelude.{true, false};
ghost use Rattle.fics_words.specs.Effect.{Takes};
ghost use Rattle.lobby_state.specs.Channel.{channel_effect};

use crate::acts::LobbyReply;
use crate::roster::Roster;
use fics_words::{Fail, Refusal};

impl Roster {
    /// The member joins the channel, or leaves it where `on` is false.
    pub(crate) fn channel(
        &mut self,
        session: u32,
        channel: u8,
        on: bool,
    ) -> Result<LobbyReply, Fail>
        ensures { Takes (channel_effect self.old session channel on) self.old self.new result }
    {
        if on {
            self.join(session, channel)
        } else {
            self.leave(session, channel)
        }
    }

    /// The member joins the channel. The causes of a refusal, in order: the session isn't a member; it is in the
    /// channel; it is in 20 channels.
    fn join(&mut self, session: u32, channel: u8) -> Result<LobbyReply, Fail>
        ensures { Takes (channel_effect self.old session channel true) self.old self.new result }
    {
        if self.member(session).is_none() {
            return Err(Fail::Refused(Refusal::NotIn));
        }
        self.channels.join(session, channel)?;
        Ok(LobbyReply::Done)
    }

    /// The member leaves the channel, which takes no memory. The causes of a refusal, in order: the session isn't a
    /// member; it isn't in the channel.
    fn leave(&mut self, session: u32, channel: u8) -> Result<LobbyReply, Fail>
        ensures { Takes (channel_effect self.old session channel false) self.old self.new result }
    {
        if self.member(session).is_none() {
            return Err(Fail::Refused(Refusal::NotIn));
        }
        self.channels.leave(session, channel)?;
        Ok(LobbyReply::Done)
    }
}
