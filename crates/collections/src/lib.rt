//! Lists for values that contracts compare.
//!
//! A bare `Vec` shows its pointer and its capacity, so two of them with the same items are different values. Each list
//! here is seen as the list of its items and forgets the rest, so a struct that holds one is a plain value: its
//! next state can be written down, and a copy of it is equal to it.
//!
//! - `Listed` takes memory as it grows. `Roomy` has its room from the start, and `Reserved` the room that was last
//!   reserved: a push into either takes no memory.
//! - A `Predicate` and a `Change` are small types with one method each. Finding, keeping and changing by them, and
//! copying
//!   by `Duplicate`, are loops that are proved here once.
//! - The contract: each call says which list stands afterwards, and running out of memory leaves everything as it was.
#![tactic(auto)]

mod changes;
mod copies;
mod list;
mod predicates;
mod reserve;
mod room;

pub use changes::Change;
pub use list::Listed;
pub use predicates::{Predicate, find, position};
pub use reserve::Reserved;
pub use room::Roomy;
