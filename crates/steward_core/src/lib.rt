//! The steward: what a server does by itself, as session 0, between the acts of its players.
//!
//! A turn asks the lobby which desks are in use and makes a Clear for each of them, in order, so that a desk is freed
//! whose players are gone. Then it asks for the save orders, 16 at a time, has a keeper carry them out, and tells the
//! lobby which were saved. The contract: over any runner these are the acts that a turn makes, and no others; what is
//! told as saved was carried out; and a store that agreed with the lobby still agrees, however the turn ended, and
//! whether a change that failed was made or not.
#![tactic(auto)]

mod clearing;
mod saving;
mod turn;

pub use clearing::{ClearingEnd, clearing_turn};
pub use turn::{StewardEnd, end_of_turn, steward_turn, turn_by_halves};
