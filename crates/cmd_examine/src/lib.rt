//! The command `examine`: a stored game step by step, by the lines of the input.
//!
//! The contract of `examine`: where the store holds a game of the number, the lines that show it before its first
//! half-move are written before anything is read; then each line of the input is answered by the lines that show where
//! it brings the exam, or by its refusal, and exactly the text of these answers is written. Where the store holds none,
//! that is told, and nothing is read.
#![tactic(auto)]

mod answering;
mod examining;
mod laws;
mod line;
mod reading;
mod texts;

pub use examining::examine;
pub use laws::a_store_has_one_game_of_a_number;
