//! Clear: a player leaves the place at a desk whose game has ended, and the desk is freed by the last one.
ghost use Rattle.std.specs.Prelude.{◌≡◌, All, map};
ghost use Rattle.lobby_state.specs.Clear.{PlaysThere, cleared, freed, off_desk};
ghost use Rattle.lobby_state.specs.WellFormed.{HasSeats};

use crate::game::ListedGame;
use crate::member::Member;
use crate::members::{Members, change_players};
use crate::roster::Roster;
use collections::Change;
use fics_words::DeskNumber;

/// The end of a member's place at this desk.
#[derive(Clone, Copy)]
struct GetUp(DeskNumber);

impl Change<Member> for GetUp {
    ghost changed = { λ from member. off_desk from.0 member };

    fn change(&self, member: &mut Member) {
        member.places.leave(self.0);
    }
}

impl Roster {
    /// The session has no place at the desk any more, which is still in use.
    pub(crate) fn free(&mut self, session: u32, desk: DeskNumber)
        ensures { self.new ≡ freed self.old session desk }
    {
        self.members.change(session, &GetUp(desk));
    }

    /// The desk is free, and nobody has a place there any more: the players of its game alone had one.
    pub(crate) fn clear(&mut self, desk: DeskNumber)
        requires { All (HasSeats self.old.games) self.old.members }
        ensures { self.new ≡ cleared self.old desk }
    {
        let game = self.game(desk);
        get_up(&mut self.members, desk, game);
        let slot = self.games.item_mut(desk.get() as usize - 1);
        *slot = None;
    }
}

/// Nobody has a place at the desk any more, where the game that is there, if one is, has those players who had one.
fn get_up(members: &mut Members, desk: DeskNumber, game: Option<ListedGame>)
    requires { All (PlaysThere desk game) members.old }
    ensures { members.new ≡ map (off_desk desk) members.old }
{
    // The slice is what says that no two sessions are equal.
    let _rows = members.as_slice();
    let Some(game) = &game else {
        return;
    };
    change_players(members, &game.seats, &GetUp(desk));
}
