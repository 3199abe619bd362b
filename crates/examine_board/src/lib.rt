//! A stored game that is looked at step by step.
//!
//! The contract: an `Exam` is seen as the stored game's terms, names and half-moves, the half-moves that are looked at,
//! and how many of these are on the boards. Each call is one line of `specs/`: `forward` and `back` go along the
//! half-moves and never change them, `play` goes on otherwise, and `revert` is at the stored game again. The boards are
//! always those of the first half-moves, as many as that. Memory is taken by `open` and `lines` alone, and a step costs
//! what its half-moves cost.
#![tactic(auto)]

mod exam;
mod laws;
mod lines;
mod playing;
mod same;
mod steps;

pub use exam::Exam;
pub use laws::{kept_half_moves_are_the_most, steps_are_undone};
