//! What a board's lines are written from, and who looks at them.
use chess_model::Face;
use fics_words::Handle;

/// All that the lines of a board need: the position, the players, the terms and the clocks.
#[derive(Clone, Copy, PartialEq)]
pub struct BoardView {
    pub face: Face,
    /// The number of the game.
    pub game: u16,
    pub white: Handle,
    pub black: Handle,
    /// The time at the start, in minutes.
    pub minutes: u16,
    /// What each charged half-move adds, in seconds.
    pub increment: u16,
    /// The remaining time of White and of Black, in milliseconds; below 0 where it is overdrawn.
    pub remaining: [i64; 2],
    /// The time that the last half-move took, in milliseconds.
    pub taken: u64,
}

/// Who looks at a board.
#[derive(Clone, Copy)]
pub struct Viewer {
    /// 1 playing and to move, -1 playing and the opponent is to move, 0 observing a played game, 2 examining,
    /// -2 observing an examined game, -3 an isolated position.
    pub relation: i8,
    /// Whether Black is at the bottom.
    pub flip: bool,
}
