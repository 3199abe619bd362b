//! How a game ended.
use chess_model::{Colour, Why};
use fics_words::BoardNumber;

/// How a game ended.
#[derive(Clone, Copy, PartialEq, Eq)]
pub struct Ended {
    pub why: Why,
    /// The board on which it ended.
    pub board: BoardNumber,
    /// Who won, or None for a draw and for a game without a result.
    pub winner: Option<Colour>,
}
