//! The referee of one board: a position that half-moves change and that takes them back.
//!
//! It stands over sets of squares, for chess, crazyhouse and bughouse at once. The contract: a `Position` stands for a
//! list of half-moves, as `PlainBoard` of rules_plain does; `allowed` is the rule for every move, `make` appends a
//! move to the list and `unmake` takes it back, `hand` is what a colour may drop, and in bughouse `receive` hands a man
//! over from the other board.
#![tactic(auto)]

mod answer;
mod changes;
mod guard;
mod kings;
mod listing;
mod make;
mod position;
mod rules;
mod sameness;
mod sets;
mod shown;
mod sights;
mod state;

pub use make::Undo;
pub use position::{Position, PositionView};
pub use sameness::is_same_position;
