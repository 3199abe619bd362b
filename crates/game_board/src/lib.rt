//! A game on one board with its clocks.
//!
//! A `GameBoard` is seen as its list of half-moves, each with its charge, and the moment from which the player to
//! move is thinking. It keeps a position and two clocks, so that no call grows with the game. The contract: `play`
//! takes exactly the words that the rules of chess give a half-move, charges the thinking time to the clock of
//! whoever moved, and changes nothing where it refuses; `flag` answers by the clocks with the running time counted;
//! `learn` hands over what is captured on the partner's board of a pair; and `put` makes a half-move of an adjourned
//! game again, with the charge that it had.
#![tactic(auto)]

mod board_face;
mod causes;
mod claims;
mod clocks;
mod game_board;
mod laws;
mod lay;
mod learn;
mod played;
mod put;
mod rewind;
mod take_back;

pub use board_face::face;
pub use clock_ledger::{Charge, ClockLedger};
pub use game_board::GameBoard;
pub use laws::{
    a_fallen_clock_stays_fallen, charges_follow_the_list, play_takes_exactly_the_answers,
    scores_are_true, the_last_acknowledgement_counts, the_last_own_half_move_is_shown,
};
pub use learn::handed_over_as;
pub use played::{Made, Played};
