//! What every state of the server promises to those who play: laws over the rules of chess and the desks together.
//!
//! The contract (`specs/LegalMoves.antt`): in every state of every legal history each desk accepts exactly the legal
//! moves of those who are to move there, and each legal move has a text by which it is played; and a refused act
//! changes nothing (`specs/Refusals.antt`).
#![tactic(auto)]

mod laws;

pub use laws::{desks_accept_exactly_legal_moves, refused_acts_change_nothing};
