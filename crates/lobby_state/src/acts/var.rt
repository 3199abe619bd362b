//! Var: a member says what it wants others to send.
ghost use Rattle.fics_words.specs.Effect.{Takes};
ghost use Rattle.lobby_state.specs.Var.{var_effect, with_var};

use crate::acts::LobbyReply;
use crate::member::Member;
use crate::roster::Roster;
use collections::Change;
use fics_words::{Fail, Refusal, Variable};

/// The setting of a variable.
#[derive(Clone, Copy)]
struct Setting {
    which: Variable,
    on: bool,
}

impl Change<Member> for Setting {
    ghost changed = { λ setting member. with_var setting.which setting.on member };

    fn change(&self, member: &mut Member) {
        match self.which {
            Variable::Open => member.wants.matches = self.on,
            Variable::Shout => member.wants.shouts = self.on,
            Variable::Seek => member.wants.seeks = self.on,
        }
    }
}

impl Roster {
    /// The member's variable is on or off from now on. It takes no memory, and is refused where the session isn't a
    /// member.
    pub(crate) fn set_var(
        &mut self,
        session: u32,
        which: Variable,
        on: bool,
    ) -> Result<LobbyReply, Fail>
        ensures { Takes (var_effect self.old session which on) self.old self.new result }
    {
        if self.member(session).is_none() {
            return Err(Fail::Refused(Refusal::NotIn));
        }
        self.members.change(session, &Setting { which, on });
        Ok(LobbyReply::Done)
    }
}
