//! What tests of every layer share: the macros that go through the rows of a table, bounds of the rules, lines of
//! boards, and stored games from rows of half-moves. It uses low crates of values alone, so that the tests of a low
//! layer stand on no higher one.
//!
//! Rows are gone through by macros and not by functions that take a closure: each use is proved as the loop that it
//! stands for, while a closure is three functions more to prove.
#![tactic(auto)]

pub mod boards;
pub mod games;
pub mod limits;
mod rows;
