//! The men that a player may drop, as five counts.
//!
//! In crazyhouse a captured man goes into the capturer's hand, in bughouse into the hand of the capturer's partner,
//! and a man in hand may be put on an empty square in place of a move (FICS help pages `crazyhouse` and `bughouse`).
//!
//! The contract: contracts see a `Holdings` as a hand of chess_model, five numbers by kind. `give` adds one to the
//! number of its kind, `take` takes one off, and every other number stays.
#![tactic(auto)]

mod holdings;

pub use holdings::Holdings;
