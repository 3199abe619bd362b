//! The squares on which kings and rooks begin and end, and the last rank.
ghost use Rattle.std.specs.Prelude.{◌≡◌, ◌<◌};
ghost use Rattle.chess_model.specs.Placement.{home_rank, last_rank, king_home, rook_home, king_end, rook_end};

use chess_model::{Colour, Square, Variant, file_of_king, file_of_rook};

#[inline]
fn home_rank_of(c: Colour) -> u8
    ensures value { result ≡ home_rank c }
    ensures within { result < 8 }
{
    match c {
        Colour::White => 0,
        Colour::Black => 7,
    }
}

/// The rank on which pawns of a colour become other men, counted from 0.
#[inline]
pub fn last_rank_of(c: Colour) -> u8
    ensures { result ≡ last_rank c }
{
    match c {
        Colour::White => 7,
        Colour::Black => 0,
    }
}

/// The square on which the king of a colour begins.
#[inline]
pub fn home_of_king(v: Variant, c: Colour) -> Square
    ensures { result ≡ king_home v c }
{
    Square::on(file_of_king(v), home_rank_of(c))
}

/// The square on which the rook for long or short castling begins.
#[inline]
pub fn home_of_rook(v: Variant, c: Colour, long: bool) -> Square
    ensures { result ≡ rook_home v c long }
{
    Square::on(file_of_rook(v, long), home_rank_of(c))
}

/// The square on which the king ends by castling.
#[inline]
pub fn end_of_king(c: Colour, long: bool) -> Square
    ensures { result ≡ king_end c long }
{
    let file = if long { 2 } else { 6 };
    Square::on(file, home_rank_of(c))
}

/// The square on which the rook ends by castling.
#[inline]
pub fn end_of_rook(c: Colour, long: bool) -> Square
    ensures { result ≡ rook_end c long }
{
    let file = if long { 3 } else { 5 };
    Square::on(file, home_rank_of(c))
}
