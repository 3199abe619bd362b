//! Bounds that docs/RULES.md names, as tests write them: the numbers stand here by themselves, and come from no crate
//! that is tested.

/// The most half-moves that a board has.
pub const HALF_MOVES: u16 = 1_200;

/// The most bytes that a line has, without what ends it.
pub const LINE_BYTES: usize = 1_023;

/// The most minutes that a player begins with, and the most seconds that a half-move brings.
pub const MINUTES: u16 = 600;

/// The last moment, in milliseconds: 2^48.
pub const LAST_MOMENT: u64 = 281_474_976_710_656;
