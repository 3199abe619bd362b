//! The slow board of chess, crazyhouse and bughouse. It follows the definitions of `chess_model` word by word.
//!
//! `PlainBoard` keeps 64 squares, the rights and the two hands in place of the list of half-moves. No crate of the
//! program plays by it: it stands beside the positions over sets of squares, for tests and for readers.
//!
//! The contract: a `PlainBoard` stands for a list of half-moves, `allowed` is the rule for every move, `after` stands
//! for the list with that move at its end, and `answer` gives a written move word its one move or the reason why it
//! has none.
#![tactic(auto)]

mod allowed;
mod answer;
mod attack;
mod changes;
mod counts;
mod hand;
mod placement;
mod plain_board;
mod reach;
mod rights;
mod square;

pub use plain_board::PlainBoard;
