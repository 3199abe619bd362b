//! The command `replay`: an evening of the server of one thread, from its script to its transcript.
//!
//! The contract of `replay`: the lines read are those of one evening, whose acts are one legal history, and exactly its
//! transcript is written. The lines fix the evening (`one_evening`).
#![tactic(auto)]

mod answering;
mod evening;
mod evening_laws;
mod replaying;
mod seating;
mod tagged;

pub use answering::do_event;
pub use evening_laws::{evening_examples, lines_of_evenings, one_evening};
pub use replaying::replay;
