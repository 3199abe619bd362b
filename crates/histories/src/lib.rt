//! Histories: the words for a server of parts, over one thread and over many.
//!
//! The state of such a server is a list of parts. An act reads and changes one part or two, its footprint; what it
//! answers and what it leaves there is a `Core`, a meaning in proofs alone, which keeps the laws of `Lawful`. From the
//! core follow the state after an act, the state of a history, which histories are legal, and the calls of a session.
//! A server implements `Served`, and each theorem over any server is stated once over that trait.
//!
//! The contract of this crate is its laws (`acts_locally`, `acts_commute`, `histories_grow`, `every_state`,
//! `every_part`): calls that do nothing, and say what is true of every server of parts.
#![tactic(auto)]

mod entry;
mod laws;
mod served;

pub use entry::Entry;
pub use laws::{
    KeptFact, KeptOfParts, acts_commute, acts_locally, every_part, every_state, histories_grow,
};
pub use served::Served;
