//! Seeks and challenges: games that players offer to anybody, and to one other.
//!
//! The contract: a `SeekBook` is the list of the seeks in the order of their numbers, and a `MatchBook` the list of the
//! challenges in the order of making; each call is a stated change of the list. No two seeks have one number, and a new
//! one has the least positive number that isn't in use. Nobody has two challenges to one player.
#![tactic(auto)]

mod challenge;
mod laws;
mod match_book;
mod opponents;
mod seek;
mod seek_book;

pub use challenge::{Challenge, ChallengeKey};
pub use laws::next_number_is_least;
pub use match_book::MatchBook;
pub use seek::Seek;
pub use seek_book::SeekBook;
