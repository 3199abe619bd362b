//! The squares that each kind of man strikes from a square.
ghost use Rattle.chess_model.specs.Placement.{Placement};
ghost use Rattle.bitboard_core.specs.Strikers.{IsOccupied, IsStruckSet, IsPushSet};

use crate::rays::{east, north, north_east, north_west, south, south_east, south_west, west};
use crate::tables::{BLACK_AHEAD, BLACK_STRIKES, KING, KNIGHT, WHITE_AHEAD, WHITE_STRIKES};
use chess_model::{Colour, Kind, Square};

/// The squares that a bishop strikes over a board with these squares occupied.
#[inline]
pub fn bishop_squares(s: Square, occupied: u64) -> u64
    ensures { (P : Placement) (c : Colour) → IsOccupied P occupied → IsStruckSet P c Kind.Bishop s result }
{
    north_east(s, occupied)
        | north_west(s, occupied)
        | south_east(s, occupied)
        | south_west(s, occupied)
}

/// The squares that a rook strikes over a board with these squares occupied.
#[inline]
pub fn rook_squares(s: Square, occupied: u64) -> u64
    ensures { (P : Placement) (c : Colour) → IsOccupied P occupied → IsStruckSet P c Kind.Rook s result }
{
    north(s, occupied) | east(s, occupied) | south(s, occupied) | west(s, occupied)
}

/// The squares that a queen strikes over a board with these squares occupied.
#[inline]
pub fn queen_squares(s: Square, occupied: u64) -> u64
    ensures { (P : Placement) (c : Colour) → IsOccupied P occupied → IsStruckSet P c Kind.Queen s result }
{
    bishop_squares(s, occupied) | rook_squares(s, occupied)
}

/// The squares that a knight strikes.
#[inline]
pub fn knight_squares(s: Square) -> u64
    ensures { (P : Placement) (c : Colour) → IsStruckSet P c Kind.Knight s result }
{
    KNIGHT[s.number() as usize]
}

/// The squares that a king strikes.
#[inline]
pub fn king_squares(s: Square) -> u64
    ensures { (P : Placement) (c : Colour) → IsStruckSet P c Kind.King s result }
{
    KING[s.number() as usize]
}

/// The squares that a pawn strikes.
#[inline]
pub fn pawn_squares(c: Colour, s: Square) -> u64
    ensures { (P : Placement) → IsStruckSet P c Kind.Pawn s result }
{
    match c {
        Colour::White => WHITE_STRIKES[s.number() as usize],
        Colour::Black => BLACK_STRIKES[s.number() as usize],
    }
}

/// The empty squares to which a pawn may push over a board with these squares occupied.
#[inline]
pub fn pawn_pushes(c: Colour, s: Square, occupied: u64) -> u64
    ensures { (P : Placement) → IsOccupied P occupied → IsPushSet P c s result }
{
    match c {
        Colour::White => white_pushes(s, occupied),
        Colour::Black => black_pushes(s, occupied),
    }
}

#[inline]
fn white_pushes(s: Square, occupied: u64) -> u64
    ensures { (P : Placement) → IsOccupied P occupied → IsPushSet P Colour.White s result }
{
    north(s, occupied) & WHITE_AHEAD[s.number() as usize] & !occupied
}

#[inline]
fn black_pushes(s: Square, occupied: u64) -> u64
    ensures { (P : Placement) → IsOccupied P occupied → IsPushSet P Colour.Black s result }
{
    south(s, occupied) & BLACK_AHEAD[s.number() as usize] & !occupied
}
