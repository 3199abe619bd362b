//! Laws of the rules that hold over all positions. No crate needs them to play.
//!
//! The contract: with the colours exchanged and the board turned over, each half-move is allowed exactly where it was.
#![tactic(auto)]

mod mirror;

pub use mirror::colours_may_be_exchanged;
