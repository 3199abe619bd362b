//! The command `board`: one untimed game of chess, whose move words are the lines of the input.
//!
//! The contract of `board`: each word is answered in the position of the half-moves accepted before it, by the style 12
//! line of the new position or by a refusal, and exactly the text of these answers is written. After mate or stalemate
//! the line of the end follows, and every later word is refused.
#![tactic(auto)]

mod endings;
mod game;
mod playing;

pub use playing::board;
