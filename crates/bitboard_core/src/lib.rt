//! A placement as sets of squares, one bit a square. The man on each square stands beside them.
//!
//! Sliding men look along printed rays that are cut at the first man in their way. The contract: contracts see a `Bits`
//! as the placement of chess_model; its sets have exactly the squares where such a man stands, `reach` has the squares
//! that a man reaches, `attackers` the men of a colour that strike a square, and `are_safe` tells of a placement that
//! is never built, from its sets, whether its kings are safe.
#![tactic(auto)]

mod bits;
mod rays;
mod sides;
mod squares;
mod steps;
mod stops;
mod tables;

pub use bits::{BitSets, Bits};
pub use sides::{Side, are_safe, is_struck, strikers};
pub use squares::{has_square, next_square, square_of};
pub use steps::{
    bishop_squares, king_squares, knight_squares, pawn_pushes, pawn_squares, queen_squares,
    rook_squares,
};
