//! InChannel: a member asks who is in a channel.
ghost use Rattle.std.specs.Prelude.{◌≡◌, IfOk, filter, map};
ghost use Rattle.channel_feed.specs.Channels.{is_in};
ghost use Rattle.fics_words.specs.Effect.{Takes};
ghost use Rattle.lobby_state.specs.InChannel.{in_channel_effect, in_channel_lines};

use crate::acts::LobbyReply;
use crate::acts::who::push_name;
use crate::name_row::NameRow;
use crate::roster::Roster;
use channel_feed::Channels;
use fics_words::{Fail, Lines, Refusal};
use memory::NoMemory;
use std::alloc::Global;

impl Roster {
    /// The handles of the members that are in the channel, in the order of their keys. It is refused where the session
    /// isn't a member.
    pub(crate) fn in_channel(&self, session: u32, channel: u8) -> Result<LobbyReply, Fail>
        ensures { Takes (in_channel_effect self.now session channel) self.now self.now result }
    {
        if self.member(session).is_none() {
            return Err(Fail::Refused(Refusal::NotIn));
        }
        let lines = self.in_channel_lines(channel)?;
        Ok(LobbyReply::Lines(lines))
    }

    /// The list of these handles as lines.
    pub(crate) fn in_channel_lines(&self, channel: u8) -> Result<Lines, NoMemory>
        ensures { IfOk result (λ lines. lines ≡ in_channel_lines self.now channel) }
    {
        lines_in(self.alloc, self.members.names(), &self.channels, channel)
    }
}

/// Those of these names whose members are in the channel, as lines.
fn lines_in(
    alloc: Global,
    names: &[NameRow],
    channels: &Channels,
    channel: u8,
) -> Result<Lines, NoMemory>
    ensures { IfOk result (λ lines.
        lines ≡ map (λ row. row.name) (filter (λ row. is_in channels.now row.session channel) names.now)) }
{
    let mut lines = Lines::new(alloc);
    for row in names {
        if channels.has(row.session, channel) {
            push_name(&mut lines, row.name)?;
        }
    }
    Ok(lines)
}
