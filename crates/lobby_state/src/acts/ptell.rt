//! Ptell: a member says something to its partner.
ghost use Rattle.std.specs.Prelude.{◌≡◌, ◌≤◌, Some, length};
ghost use Rattle.fics_words.specs.Effect.{Takes};
ghost use Rattle.fics_words.specs.Line.{most_text_bytes};
ghost use Rattle.lobby_state.specs.Ptell.{is_partner_full, ptell_effect};

use crate::acts::LobbyReply;
use crate::roster::Roster;
use fics_words::{Fail, Line, Refusal};

impl Roster {
    /// The member says the text to its partner. The causes of a refusal, in order: the session isn't a member; it has
    /// no partner; 512 lines wait for the partner.
    pub(crate) fn ptell(&mut self, session: u32, text: &Line) -> Result<LobbyReply, Fail>
        requires { length text.now ≤ most_text_bytes }
        ensures { Takes (ptell_effect self.old session text.now) self.old self.new result }
    {
        let Some(caller) = self.member(session) else {
            return Err(Fail::Refused(Refusal::NotIn));
        };
        let Some(partner) = self.partner_of(session) else {
            return Err(Fail::Refused(Refusal::NoPartner));
        };
        if self.is_partner_full(partner) {
            return Err(Fail::Refused(Refusal::QueueFull));
        }
        let name = caller.name;
        self.say_to(partner, name, b" (your partner) tells you: ", text.bytes())?;
        Ok(LobbyReply::Told(1))
    }

    /// Whether no more lines can wait for this partner.
    fn is_partner_full(&self, partner: u32) -> bool
        ensures { result ≡ is_partner_full self.now (Some partner) }
    {
        match self.member(partner) {
            Some(member) => member.is_full(),
            None => false,
        }
    }
}
