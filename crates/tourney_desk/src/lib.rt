//! A round robin: who has joined it, who meets whom in which round, the results, and the table.
//!
//! The contract: over all rounds every two players meet exactly once, nobody stands in two pairs of a round, and the
//! numbers of a player's White and Black games differ by at most 1; the table is the sum over the results that were
//! accepted; each call gives the stated answer, and a refused one changes nothing.
#![tactic(auto)]

mod pairing;
mod score;
mod table;
mod tourney;

pub use score::{Report, Score, ScoreRow};
pub use tourney::Tourney;
