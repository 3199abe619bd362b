//! Going: a session begins to leave, and asks for its places.
ghost use Rattle.std.specs.Prelude.{Ok};
ghost use Rattle.fics_words.specs.Effect.{Takes};
ghost use Rattle.lobby_state.specs.Going.{going_effect, leaving_member};

use crate::acts::LobbyReply;
use crate::member::Member;
use crate::roster::Roster;
use collections::Change;

/// Leaving: the member can't be named from then on.
#[derive(Clone, Copy)]
struct Leave;

impl Change<Member> for Leave {
    ghost changed = { λ _ member. leaving_member member };

    fn change(&self, member: &mut Member) {
        member.going = true;
    }
}

impl Roster {
    /// The session begins to leave: its challenges, its seeks, its requests and its link go, and it can't be named from
    /// then on. Its places are answered. It takes no memory and is never refused.
    pub(crate) fn going(&mut self, session: u32) -> LobbyReply
        ensures { Takes (going_effect self.old session) self.old self.new (Ok result) }
    {
        let places = self.places(session);
        self.members.change(session, &Leave);
        self.challenges.forget(session);
        self.seeks.forget(session);
        self.partners.forget(session);
        self.shelf.forget(session);
        LobbyReply::Places(places)
    }
}
