//! The command `tourney`: a round robin from the lines of the input. They are its players, results and questions.
//!
//! The contract of `tourney`: each line is answered by what the tourney that the lines before it made gives, or by its
//! refusal, and exactly the text of these answers is written.
#![tactic(auto)]

mod answering;
mod line;
mod reading;
mod texts;

pub use answering::tourney;
