//! The bounds of a game, which every crate above takes from here.

/// The most half-moves that are made on one board.
pub const MOST_HALVES: usize = 1_200;

/// The most minutes that a clock starts with, and the most seconds of increment.
pub const MOST_TIME: u16 = 600;

/// How many arrays Fischer random has.
pub const ARRAYS: u16 = 960;
