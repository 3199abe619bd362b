//! The command `demo`: a large evening that is made from a number, and its counts. The server of one thread plays it.
//!
//! The contract of `demo`: what is written is the summary of the history that `specs/Demo.antt` makes of the number,
//! and of no other (`one_demo`), for it says of each step whose line comes and which line it is, by the draws from the
//! number and by where the server stands. Each line is taken by the session's own calls, as in `replay`.
#![tactic(auto)]

mod counts;
mod demo_laws;
mod names;
mod said;
mod steps;
mod summary;
mod telling;
mod turns;
mod wish;

pub use demo_laws::one_demo;
pub use telling::demo;
