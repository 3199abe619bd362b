//! The men of one colour, and what they attack.
ghost use Rattle.std.specs.Prelude.{◌↔◌, IsTrue};
ghost use Rattle.chess_model.specs.Placement.{Placement, opposite};
ghost use Rattle.chess_model.specs.Attacked.{IsAttacked, IsKingSafe};
ghost use Rattle.bitboard_core.specs.Strikers.{IsOccupied, AreMenOf, AreKingsOf, IsStrikerSet};

use crate::squares::{next_square, square_of};
use crate::steps::{bishop_squares, king_squares, knight_squares, pawn_squares, rook_squares};
use chess_model::{Colour, Square};

/// The men of one colour, by kind: bit s of a set stands for square s.
#[derive(Clone, Copy)]
pub struct Side {
    pub pawns: u64,
    pub knights: u64,
    pub bishops: u64,
    pub rooks: u64,
    pub queens: u64,
    pub kings: u64,
}

/// The squares of the men of the colour `by` that strike s, in any placement whose men of that colour `side` has and
/// whose men all stand on the squares `occupied`.
#[inline]
pub fn strikers(side: &Side, by: Colour, occupied: u64, s: Square) -> u64
    ensures { (P : Placement) → AreMenOf P by side.now → IsOccupied P occupied → IsStrikerSet P by s result }
{
    pawn_squares(by.opposite(), s) & side.pawns
        | knight_squares(s) & side.knights
        | king_squares(s) & side.kings
        | bishop_squares(s, occupied) & (side.bishops | side.queens)
        | rook_squares(s, occupied) & (side.rooks | side.queens)
}

/// Whether the colour `by` attacks s, in any placement whose men of that colour `side` has and whose men all stand on
/// the squares `occupied`.
#[inline]
pub fn is_struck(side: &Side, by: Colour, occupied: u64, s: Square) -> bool
    ensures { (P : Placement) → AreMenOf P by side.now → IsOccupied P occupied → IsTrue result ↔ IsAttacked P by s }
{
    strikers(side, by, occupied, s) != 0
}

/// Whether none of these kings of the other colour stands on a square that the colour `by` attacks, in any placement
/// whose men of the colour `by` the sets of `side` have, whose men all stand on `occupied`, and whose kings of the
/// other colour stand on `kings`.
#[inline]
pub fn are_safe(side: &Side, by: Colour, occupied: u64, kings: u64) -> bool
    ensures { (P : Placement) → AreMenOf P by side.now → IsOccupied P occupied → AreKingsOf P (opposite by) kings →
        IsTrue result ↔ IsKingSafe P (opposite by) }
{
    let mut s = next_square(kings, 0);
    while s < 64 {
        if is_struck(side, by, occupied, square_of(s)) {
            return false;
        }
        s = next_square(kings, s + 1);
    }
    true
}
