//! TellChannel: a member says something to all others in a channel.
ghost use Rattle.std.specs.Prelude.{◌≡◌, ◌≤◌, IfOk, length};
ghost use Rattle.fics_words.specs.Effect.{Takes};
ghost use Rattle.fics_words.specs.Line.{most_text_bytes};
ghost use Rattle.lobby_state.specs.TellChannel.{channel_words, tell_channel_effect};

use crate::acts::LobbyReply;
use crate::hearers::{Others, tell_others};
use crate::roster::Roster;
use crate::said::said_line;
use fics_words::{Fail, Line, Refusal, write_number};
use memory::NoMemory;
use std::alloc::Global;

impl Roster {
    /// The member says the text to all others in the channel. The causes of a refusal, in order: the session isn't a
    /// member; it isn't in the channel.
    pub(crate) fn tell_channel(
        &mut self,
        session: u32,
        channel: u8,
        text: &Line,
    ) -> Result<LobbyReply, Fail>
        requires { length text.now ≤ most_text_bytes }
        ensures { Takes (tell_channel_effect self.old session channel text.now) self.old self.new result }
    {
        let Some(caller) = self.member(session) else {
            return Err(Fail::Refused(Refusal::NotIn));
        };
        if !self.channels.has(session, channel) {
            return Err(Fail::Refused(Refusal::NotInChannel));
        }
        let name = caller.name;
        let wording = channel_words(self.alloc, channel)?;
        let line = said_line(self.alloc, name, &wording, text.bytes())?;
        let others = Others { session, channel };
        let told = tell_others(&mut self.members, &self.channels, others, &line)?;
        Ok(LobbyReply::Told(told))
    }
}

/// What stands between the name and the text of a line to the channel.
fn channel_words(alloc: Global, channel: u8) -> Result<Vec<u8>, NoMemory>
    ensures { IfOk result (λ words. words.items ≡ channel_words channel) }
{
    let mut words = Vec::from_slice(alloc, b"(")?;
    write_number(&mut words, u64::from(channel))?;
    words.extend_from_slice(b"): ")?;
    Ok(words)
}
