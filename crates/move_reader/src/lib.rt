//! Reading the moves that players type.
//!
//! The contract: `read_word` gives a word exactly where the text is one of its spellings (`specs/Spellings.antt`), and
//! no text has two readings. A word says nothing of a position: whether it names a move there is for the rules.
#![tactic(auto)]

mod laws;
mod letters;
mod parts;
mod words;

pub use laws::one_reading;
pub use words::read_word;
