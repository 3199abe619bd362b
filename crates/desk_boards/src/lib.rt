//! The boards of a game: one, or two in bughouse, each of which learns what is played on the other.
//!
//! The contract: contracts see the boards as their list. A word at one board is a half-move there, and the other board
//! of a pair learns of it in the same call, so that a captured man comes into a hand there; a refusal changes neither.
//! `halves` gives the half-moves of a game with their charges as a record has them, and `replay` gives the boards back
//! exactly where such half-moves can be played. `rewind` and `lay` go through a game that was played.
#![tactic(auto)]

mod boards;
mod halves;
mod laws;
mod laying;
mod linked;
mod replay;
mod stored;

pub use boards::Boards;
pub use laws::{boards_are_replayed, boards_stay_sound, ends_come_by_moves, halves_are_the_boards};
pub use stored::replays;
