//! GoBoard: a giver goes to its place against a player.
ghost use Rattle.std.specs.Prelude.{◌≡◌, ◌<◌, IfSome, false, length};
ghost use Rattle.std.specs.List.{position};
ghost use Rattle.fics_words.specs.Effect.{Takes};
ghost use Rattle.lobby_state.specs.GoBoard.{go_board_effect, is_against, opponent_seated, other_seat};

use crate::acts::LobbyReply;
use crate::roster::Roster;
use fics_words::{Fail, HandleKey, Player, Refusal, Seats};
use simul_control::{Place, Places};

impl Roster {
    /// The session's first place whose opponent, in the other seat of the same board, is the named player is its
    /// present one. The causes of a refusal, in order: the session isn't a member; nobody has the handle, or that
    /// member is going; the session gives no simul, or has no place; it has none against that player. It takes no
    /// memory.
    pub(crate) fn go_board(&mut self, session: u32, name: HandleKey) -> Result<LobbyReply, Fail>
        ensures { Takes (go_board_effect self.old session name) self.old self.new result }
    {
        let Some(caller) = self.member(session) else {
            return Err(Fail::Refused(Refusal::NotIn));
        };
        let Some(other) = self.named(name) else {
            return Err(Fail::Refused(Refusal::NoSuchPlayer));
        };
        let mut places = caller.places;
        if places.gives_nowhere() {
            return Err(Fail::Refused(Refusal::NotGiving));
        }
        let Some(at) = self.first_against(other.session, &places) else {
            return Err(Fail::Refused(Refusal::NotPlaying));
        };
        places.go(at);
        self.put_places(session, places);
        Ok(LobbyReply::Done)
    }

    /// The number, from 0, of the first of these places that is against the player of this session.
    fn first_against(&self, player: u32, places: &Places) -> Option<usize>
        ensures first { result ≡ position (is_against self.now player) places.now.rows }
        ensures within { IfSome result (λ at. at < length places.now.rows) }
    {
        for at in 0..places.len() {
            if self.is_against(player, &places.place(at)) {
                return Some(at);
            }
        }
        None
    }

    /// Whether the place is against the player of this session.
    fn is_against(&self, player: u32, place: &Place) -> bool
        ensures { result ≡ is_against self.now player place.now }
    {
        let Some(game) = self.game(place.desk) else {
            return false;
        };
        match opponent_of(place.seat, &game.seats) {
            None => false,
            Some(opponent) => opponent.session == player,
        }
    }
}

/// The opponent of the seat: the player in the other seat of the same board, if there is one.
fn opponent_of(seat: u8, seats: &Seats) -> Option<Player>
    ensures { result ≡ opponent_seated seat seats.now }
{
    seats.at(other_seat(seat))
}

/// The other seat of the same board.
fn other_seat(seat: u8) -> u8
    ensures { result ≡ other_seat seat }
{
    if seat % 2 == 0 { seat + 1 } else { seat - 1 }
}
