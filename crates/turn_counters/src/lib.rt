//! Two counters behind turns: the smallest server of parts. Each of its acts adds one, to the first counter or to both,
//! and is one entry of the history.
#![tactic(auto)]

mod bump;
mod counters;
mod steps;

pub use bump::Bump;
pub use counters::{Counters, bump_first, make};
