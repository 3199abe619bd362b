//! The man on each of 64 squares.
ghost use Rattle.std.specs.Prelude.{◌≡◌, Option};
ghost use Rattle.chess_model.specs.Placement.{man_at, second_rank};

use crate::square::index_of;
use chess_model::{Colour, Man, Square};

/// The man on each square, by the square's number.
pub(crate) type Men = [Option<Man>; 64];

pub(crate) fn man_on(men: &Men, s: Square) -> Option<Man>
    ensures { result ≡ man_at men.now s }
{
    men[index_of(s)]
}

pub(crate) fn second_rank_of(c: Colour) -> u8
    ensures { result ≡ second_rank c }
{
    match c {
        Colour::White => 1,
        Colour::Black => 6,
    }
}
