//! The command `bot D`: the best move of a position, D half-moves ahead, by the house's player.
//!
//! The contract of `bot`: the first line of the input names a variant, each later one a half-move that is accepted in
//! the position of those before it, and at the input's end exactly the best move of the position and its value are
//! written, as `house_bot` defines them; at a line outside this grammar nothing is written but the line that tells of
//! it. `inputs` and `bot_texts` say the same in a player's words, by the rules as relations.
#![tactic(auto)]

mod answering;
mod game;
mod laws;
mod reading;

pub use answering::bot;
pub use laws::{bot_texts, inputs};
