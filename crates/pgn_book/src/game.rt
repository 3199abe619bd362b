//! A game as PGN text tells it.
use chess_model::Move;
use collections::Listed;

/// How a game ended, or that it didn't.
#[derive(Clone, Copy, Debug, PartialEq, Eq)]
pub enum PgnResult {
    /// `1-0`.
    White,
    /// `0-1`.
    Black,
    /// `1/2-1/2`.
    Draw,
    /// `*`: the game goes on, or its end isn't told.
    Open,
}

/// The six texts beside the result; each has at most 255 bytes, none of them below 32.
#[derive(Drop)]
pub struct TagRow {
    pub event: Listed<u8>,
    pub site: Listed<u8>,
    /// Year, month and day, as `1992.11.04`.
    pub date: Listed<u8>,
    pub round: Listed<u8>,
    pub white: Listed<u8>,
    pub black: Listed<u8>,
}

/// A game of chess from the start: its tags, its half-moves, of which there are at most 1,200, and its result.
#[derive(Drop)]
pub struct PgnGame {
    pub tags: TagRow,
    pub moves: Listed<Move>,
    pub result: PgnResult,
}
