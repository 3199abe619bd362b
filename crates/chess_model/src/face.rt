//! What a printed board shows of a game.
use crate::man::{Colour, Man};
use crate::text::MoveText;

/// All that a printed board shows of a game, clocks and names aside.
#[derive(Clone, Copy, PartialEq, Eq)]
pub struct Face {
    /// The man on each square, by the square's number.
    pub men: [Option<Man>; 64],
    pub to_move: Colour,
    /// The file, 0 to 7, of the double pawn push that the last half-move was.
    pub push: Option<u8>,
    /// White's short and long castling right, then Black's.
    pub rights: [bool; 4],
    /// Half-moves since the last pawn move, capture or drop.
    pub quiet: u16,
    /// The number of the move about to be made, from 1.
    pub number: u16,
    pub verbose: MoveText,
    pub pretty: MoveText,
}
