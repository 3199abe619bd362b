//! The command `check`: a store is loaded, and how much it holds is told.
//!
//! The contract of `check`: over a store whose records are good the line has the numbers of its accounts and of its
//! games, and over another one the least bad key (`specs/CheckEnds.antt`); a fault is told only where the keeper or the
//! sink counted one. Nothing is read but the store, which stays as it is.
#![tactic(auto)]

mod checking;

pub use checking::check;
