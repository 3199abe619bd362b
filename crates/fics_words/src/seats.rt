//! Who sits at a desk.

ghost use Rattle.std.specs.Prelude.{◌≡◌, length, slice_get};
ghost use Rattle.fics_words.specs.Seats.{all_registered, facing, players_of, seat_list, seat_number, second_board, waits};

use crate::player::Player;
use memory::{Duplicate, NoMemory};

/// The two players of one board.
#[derive(Clone, Copy, Debug, PartialEq, Eq)]
pub struct Opponents {
    pub white: Player,
    pub black: Player,
}

/// Who sits at a desk: the players of its board, or of its two boards. Seats are numbered from 0: White and Black of
/// the first board are 0 and 1, those of the second board 2 and 3.
#[derive(Clone, Copy, Debug, PartialEq, Eq)]
pub struct Seats {
    pub first: Opponents,
    /// The players of the second board, where the game is played on two.
    pub second: Option<Opponents>,
}

impl Opponents {
    /// Two at their board: the first of them has White, or the second.
    pub fn facing(white: bool, one: Player, another: Player) -> Opponents
        ensures { result ≡ facing white one another }
    {
        if white {
            Opponents {
                white: one,
                black: another,
            }
        } else {
            Opponents {
                white: another,
                black: one,
            }
        }
    }

    /// Two at the second board, where both are there: the first of them has White, or the second.
    pub fn beside(white: bool, one: Option<Player>, another: Option<Player>) -> Option<Opponents>
        ensures { result ≡ second_board white one another }
    {
        let Some(one) = one else {
            return None;
        };
        let Some(another) = another else {
            return None;
        };
        Some(Opponents::facing(white, one, another))
    }

    /// The place of the session among the two, 0 for White and 1 for Black, if it is one of them.
    fn place(&self, session: u32) -> Option<u8>
        ensures { result ≡ seat_number session (players_of self.now) }
    {
        if self.white.session == session {
            return Some(0);
        }
        if self.black.session == session {
            return Some(1);
        }
        None
    }
}

impl Seats {
    /// How many seats there are, 2 or 4.
    pub fn count(&self) -> u8
        ensures { result ≡ length (seat_list self.now) }
    {
        match &self.second {
            None => 2,
            Some(_) => 4,
        }
    }

    /// The player in the seat of that number; None exactly where there is no such seat.
    pub fn at(&self, seat: u8) -> Option<Player>
        ensures { result ≡ slice_get (seat_list self.now) seat }
    {
        match seat {
            0 => Some(self.first.white),
            1 => Some(self.first.black),
            2 => Some(self.second?.white),
            3 => Some(self.second?.black),
            _ => None,
        }
    }

    /// Whether each player has an account.
    pub fn all_registered(&self) -> bool
        ensures { result ≡ all_registered self.now }
    {
        let first = &self.first;
        if !(first.white.registered && first.black.registered) {
            return false;
        }
        match &self.second {
            None => true,
            Some(second) => second.white.registered && second.black.registered,
        }
    }

    /// Whether their game waits for whoever leaves it: it has one board, and its players have accounts.
    pub fn waits(&self) -> bool
        ensures { result ≡ waits self.now }
    {
        if self.second.is_some() {
            return false;
        }
        self.all_registered()
    }

    /// The number of the session's seat; None exactly where it has none.
    pub fn number(&self, session: u32) -> Option<u8>
        ensures { result ≡ seat_number session (seat_list self.now) }
    {
        if let Some(place) = self.first.place(session) {
            return Some(place);
        }
        match &self.second {
            None => None,
            Some(second) => second.place(session).map(|place| place + 2),
        }
    }
}

impl Duplicate for Seats {
    /// Takes no memory.
    fn duplicate(&self) -> Result<Seats, NoMemory>
        ensures { result ≡ Ok self.now }
    {
        Ok(*self)
    }
}
