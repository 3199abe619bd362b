//! What a member does with its own places alone.
ghost use Rattle.std.specs.Prelude.{◌≡◌};
ghost use Rattle.lobby_state.specs.OwnPlaces.{placed, with_places};

use crate::member::Member;
use crate::roster::Roster;
use collections::Change;
use simul_control::Places;

/// Other places of a member.
#[derive(Clone, Copy)]
struct Moved(Places);

impl Change<Member> for Moved {
    ghost changed = { λ moved member. with_places moved.0 member };

    fn change(&self, member: &mut Member) {
        member.places = self.0;
    }
}

impl Roster {
    /// The member of the session has these places from now on.
    pub(crate) fn put_places(&mut self, session: u32, places: Places)
        ensures { self.new ≡ placed self.old session places }
    {
        self.members.change(session, &Moved(places));
    }
}
