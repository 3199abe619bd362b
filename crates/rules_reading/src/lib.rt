//! What is written of a move can be read again.
//!
//! The contract: after every legal list of half-moves of every variant, the pretty text of an allowed move is read as a
//! word that the position answers by that move, so a list of pretty texts tells the game.
#![tactic(auto)]

mod laws;

pub use laws::{pretty_texts_read_back, read_back};
