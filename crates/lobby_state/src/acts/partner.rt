//! Partner: a member asks another to be its partner, or parts with the one it has.
ghost use Rattle.std.specs.Prelude.{◌≡◌, IfOk, OnErr, OnOk, true};
ghost use Rattle.channel_feed.specs.Waiting.{with_line as with_one_more};
ghost use Rattle.fics_words.specs.Effect.{Takes, first_cause};
ghost use Rattle.lobby_state.specs.Broadcast.{broadcast};
ghost use Rattle.lobby_state.specs.Lobby.{is_session};
ghost use Rattle.lobby_state.specs.Partner.{ask_causes, ask_effect, asked_reply, asking_effect, part_effect};
ghost use Rattle.lobby_state.specs.Partner.{partner_effect, partner_words};
ghost use Rattle.partner_link.specs.Partners.{asking};

use crate::acts::LobbyReply;
use crate::inbox::Inbox;
use crate::member::Member;
use crate::members::Members;
use crate::roster::Roster;
use crate::said::{joined, said_line};
use fics_words::{Fail, Handle, HandleKey, Line, Refusal};
use memory::NoMemory;
use partner_link::Partners;
use std::alloc::Global;

impl Roster {
    /// With a name the session asks, and without one it parts.
    pub(crate) fn partner(
        &mut self,
        session: u32,
        name: Option<HandleKey>,
    ) -> Result<LobbyReply, Fail>
        ensures { Takes (partner_effect self.old session name) self.old self.new result }
    {
        match name {
            Some(to) => self.ask_partner(session, to),
            None => self.part_partner(session),
        }
    }

    /// The session asks the named player to be its partner: they are partners where the other has asked before, and
    /// else the request stands; and the other is told. The causes of a refusal, in order: the session isn't a member;
    /// nobody has the handle, or that member is going; it is the session itself; one of the two has a partner; 512
    /// lines wait for the other.
    fn ask_partner(&mut self, session: u32, to: HandleKey) -> Result<LobbyReply, Fail>
        ensures { Takes (ask_effect self.old session to) self.old self.new result }
    {
        let Some(caller) = self.member(session) else {
            return Err(Fail::Refused(Refusal::NotIn));
        };
        let Some(other) = self.named(to) else {
            return Err(Fail::Refused(Refusal::NoSuchPlayer));
        };
        if let Some(refusal) = self.ask_refusal(session, other) {
            return Err(Fail::Refused(refusal));
        }
        let (name, partner) = (caller.name, other.session);
        self.ask_member(session, name, partner)
    }

    /// Why the session can't ask the other to be its partner, if it can't.
    fn ask_refusal(&self, session: u32, other: &Member) -> Option<Refusal>
        ensures { result ≡ first_cause (ask_causes self.now session other.now) }
    {
        if other.session == session {
            return Some(Refusal::BadOpponent);
        }
        if self.partner_of(session).is_some() || self.partner_of(other.session).is_some() {
            return Some(Refusal::HasPartner);
        }
        if other.is_full() {
            return Some(Refusal::QueueFull);
        }
        None
    }

    /// The session, which goes by that name, asks another to be its partner, and the other is told. Refused where one
    /// of the two has a partner.
    fn ask_member(&mut self, session: u32, name: Handle, other: u32) -> Result<LobbyReply, Fail>
        ensures { Takes (asking_effect self.old session name other) self.old self.new result }
    {
        let linked = self.partners.has_asked(other, session);
        let line = partner_line(self.alloc, name, linked)?;
        ask_and_tell(&mut self.partners, session, other, &mut self.members, line)?;
        Ok(asked_reply(linked))
    }

    /// The session parts with its partner, who is told, where fewer than 512 lines wait there. The causes of a refusal,
    /// in order: the session isn't a member; it has no partner.
    fn part_partner(&mut self, session: u32) -> Result<LobbyReply, Fail>
        ensures { Takes (part_effect self.old session) self.old self.new result }
    {
        let Some(caller) = self.member(session) else {
            return Err(Fail::Refused(Refusal::NotIn));
        };
        let Some(partner) = self.partner_of(session) else {
            return Err(Fail::Refused(Refusal::NoPartner));
        };
        let name = caller.name;
        self.say_to(partner, name, b" is no longer your partner.", b"")?;
        self.partners.part(session)?;
        Ok(LobbyReply::Done)
    }
}

/// The one asks the other to be its partner, and the line of it waits for the other, where fewer than 512 do.
fn ask_and_tell(
    partners: &mut Partners,
    from: u32,
    to: u32,
    members: &mut Members,
    line: Line,
) -> Result<bool, Fail>
    ensures asked { Takes (asking partners.old from to) partners.old partners.new result }
    ensures told { OnOk result (members.new ≡ broadcast (is_session to) line members.old) }
    ensures untold { OnErr result (members.new ≡ members.old) }
{
    // The slice is what says that no two sessions are equal.
    let _rows = members.as_slice();
    let Some(place) = members.place(to) else {
        return Ok(partners.ask(from, to)?);
    };
    Ok(ask_and_wait(partners, from, to, members.waiting_mut(place), line)?)
}

/// The one asks the other, and the line of it waits behind these. Where the ask isn't made, the line is taken back.
fn ask_and_wait(
    partners: &mut Partners,
    from: u32,
    to: u32,
    waiting: &mut Inbox,
    line: Line,
) -> Result<bool, Fail>
    ensures asked { Takes (asking partners.old from to) partners.old partners.new result }
    ensures told { OnOk result (waiting.new ≡ with_one_more line waiting.old) }
    ensures untold { OnErr result (waiting.new ≡ waiting.old) }
{
    let is_told = waiting.push(line)?;
    match partners.ask(from, to) {
        Ok(linked) => Ok(linked),
        Err(fail) => {
            if is_told {
                waiting.take_back();
            }
            Err(fail)
        }
    }
}

/// What an ask is answered, where the two are partners from then on and where not.
fn asked_reply(linked: bool) -> LobbyReply
    ensures { result ≡ asked_reply linked }
{
    if linked {
        LobbyReply::Done
    } else {
        LobbyReply::Asked
    }
}

/// The line that an ask sends: who asks, or whose partner the other is from then on.
fn partner_line(alloc: Global, name: Handle, linked: bool) -> Result<Line, NoMemory>
    ensures { IfOk result (λ line. line ≡ partner_words linked name) }
{
    if linked {
        return link_line(alloc, name);
    }
    said_line(alloc, name, b" offers to be your partner.", b"")
}

/// The line that tells of a new partner.
fn link_line(alloc: Global, name: Handle) -> Result<Line, NoMemory>
    ensures { IfOk result (λ line. line ≡ partner_words true name) }
{
    let text = link_text(alloc, name.letters())?;
    Ok(Line::from_bytes(text))
}

/// The bytes of that line, for a partner with these letters.
fn link_text(alloc: Global, letters: &[u8]) -> Result<Vec<u8>, NoMemory>
    ensures { IfOk result (λ text. text.items ≡ partner_words true letters.now) }
{
    joined(alloc, b"You are now the partner of ", letters, b".")
}
