//! The hall: one lobby and 128 desks behind turns, for many threads.
//!
//! A hall is the server of `one_server` with each part behind a turn of its own. A session makes its acts with a pass:
//! the first one comes with the hall, others are split from it, go to other threads, and are joined again. `HallSeat`
//! is a pass at its hall, and runs a session as `Runner` asks.
//!
//! The contract: whatever the other threads do, each act is answered as the server of one thread answers it in one
//! legal history of the whole hall. What a pass sees begins with what it had seen, is legal, and has as its own entries
//! the acts that it made. An act that runs out of memory, or finds a part busy, makes no entry and changes nothing.
//! `close` gives the lobby and the desks of the state of the whole history.
#![tactic(auto)]

mod boxed_part;
mod ends;
mod hall;
mod hall_rules;
mod laws;
mod pass;
mod ran;
mod seat;

pub use ends::HallParts;
pub use hall::Hall;
pub use laws::acts_apart_commute;
pub use pass::HallPass;
pub use ran::Ran;
pub use seat::HallSeat;
