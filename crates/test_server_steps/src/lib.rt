//! Steps that tests make at a server of one thread by acts alone. Beside them stand what replies say in short, and what
//! comes from players and is written by sessions: what the tests of the server, of sessions, of the hall and of the
//! steward share.
//!
//! It promises nothing by contracts: what a step shows is shown by running it.
#![tactic(auto)]

mod parts;
mod said;
mod steps;
pub mod talk;

pub use parts::{handle, server, square};
pub use said::{Said, in_short, of_pair};
pub use steps::{Does, Step, first_failing, first_failing_anew, is_as_expected, made, made_anew};
