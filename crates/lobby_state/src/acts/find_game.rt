//! FindGame: a member asks where the game of a number is played.
ghost use Rattle.std.specs.Prelude.{◌≡◌};
ghost use Rattle.fics_words.specs.Effect.{Takes};
ghost use Rattle.lobby_state.specs.FindGame.{board_seat, find_game_effect, first_seat, hall_desk, has_board, seat_at};
ghost use Rattle.lobby_state.specs.Lobby.{game_at};

use crate::acts::LobbyReply;
use crate::roster::Roster;
use chess_model::Variant;
use fics_words::{DeskNumber, Fail, Refusal};
use simul_control::Place;

impl Roster {
    /// The first seat of the game of that number. The causes of a refusal, in order: the session isn't a member; no
    /// desk is in use for such a game. It takes no memory.
    pub(crate) fn find_game(&self, session: u32, number: u16) -> Result<LobbyReply, Fail>
        ensures { Takes (find_game_effect self.now session number) self.now self.now result }
    {
        if self.member(session).is_none() {
            return Err(Fail::Refused(Refusal::NotIn));
        }
        let Some(place) = self.first_seat(number) else {
            return Err(Fail::Refused(Refusal::NoSuchGame));
        };
        Ok(LobbyReply::Found(place))
    }

    /// The first seat of the game of that number, if a desk is in use for one.
    fn first_seat(&self, number: u16) -> Option<Place>
        ensures { result ≡ first_seat self.now number }
    {
        match hall_desk(number) {
            Some(desk) => self.seat_at(number, desk),
            None => None,
        }
    }

    /// The first seat of the game for which the desk is in use, where a board of it has that number.
    fn seat_at(&self, number: u16, desk: DeskNumber) -> Option<Place>
        ensures { result ≡ seat_at number desk (game_at self.now desk) }
    {
        match self.game(desk) {
            Some(game) => board_seat(number, desk, game.serial, game.terms.variant),
            None => None,
        }
    }
}

/// The desk of the game of that number, if it is one of the hall.
fn hall_desk(number: u16) -> Option<DeskNumber>
    ensures { result ≡ hall_desk number }
{
    let desk = (u32::from(number) + 1) / 2;
    if desk < 1 {
        return None;
    }
    if desk > 128 {
        return None;
    }
    Some(DeskNumber::new(desk as u8))
}

/// The first seat of a game of that serial at the desk, where a board of it has that number.
fn board_seat(number: u16, desk: DeskNumber, serial: u64, variant: Variant) -> Option<Place>
    ensures { result ≡ board_seat number desk serial variant }
{
    if !has_board(number, variant) {
        return None;
    }
    Some(Place {
        desk,
        serial,
        seat: 0,
    })
}

/// Whether a board of a game has that number: an odd one is the first board's.
fn has_board(number: u16, variant: Variant) -> bool
    ensures { result ≡ has_board number variant }
{
    if number % 2 == 1 {
        return true;
    }
    match variant {
        Variant::Bughouse => true,
        Variant::Chess => false,
        Variant::Crazyhouse => false,
        Variant::Fischer(_) => false,
    }
}
