//! How a command over a store ends, and the number that tells of it.
//!
//! The contract: `specs/Outcomes.antt` has the number of each outcome, and what becomes of a store that couldn't be
//! opened.
#![tactic(auto)]

mod outcome;

pub use outcome::{Outcome, outcome_of, status_of_outcome};
