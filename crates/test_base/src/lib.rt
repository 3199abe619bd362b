//! Tests of the crates at the bottom, a folder a subject: toy servers that show how their words are used, challenges,
//! channels and offers, the reader of a link, the records of a store, and a round robin.
#![tactic(auto)]

#[cfg(test)]
mod book;
mod bump;
mod counters;
#[cfg(test)]
mod line;
#[cfg(test)]
mod lists;
#[cfg(test)]
mod records;
#[cfg(test)]
mod tests;
#[cfg(test)]
mod tourney;

pub use bump::Bump;
pub use counters::{Counters, Pair, example_is_legal, left_and_right_commute};
