//! The board and the colour of each seat.
ghost use Rattle.std.specs.Prelude.{◌≡◌};
ghost use Rattle.linked_desk.specs.Seats.{board_of, colour_at};

use chess_model::Colour;
use fics_words::BoardNumber;

/// The colour of a seat: seats 0 and 2 are White's, 1 and 3 Black's.
pub fn colour_at(seat: u8) -> Colour
    ensures { result ≡ colour_at seat }
{
    if seat % 2 == 0 {
        Colour::White
    } else {
        Colour::Black
    }
}

/// The board of a seat: seats 0 and 1 are at the first one, 2 and 3 at the second.
pub fn board_of(seat: u8) -> BoardNumber
    ensures { result ≡ board_of seat }
{
    if seat / 2 == 0 {
        BoardNumber::First
    } else {
        BoardNumber::Second
    }
}
