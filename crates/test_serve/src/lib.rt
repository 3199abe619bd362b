//! Tests of the server and of its adapters: connections in memory and over TCP, each served to its end, faults of the
//! door, the sink, the keeper and a link, a door that waits for a greeting, a client that connects on `ready`, what isn't
//! put off until the door closes, a worker that is held with a desk in its hands, what each half-move is charged, the
//! last turn of the steward, what fails where memory is ample, and what a keeper holds from one evening to the next. What
//! the clients are sent is written out by hand.
#![tactic(auto)]

#[cfg(test)]
mod adapters;
#[cfg(test)]
mod ample;
#[cfg(test)]
mod charges;
#[cfg(test)]
mod doors;
#[cfg(test)]
mod fakes;
#[cfg(test)]
mod held_plays;
#[cfg(test)]
mod held_stage;
#[cfg(test)]
mod held_worker;
#[cfg(test)]
mod last_turn;
#[cfg(test)]
mod put_off;
#[cfg(test)]
mod ready;
#[cfg(test)]
mod serves;
#[cfg(test)]
mod stores;
#[cfg(test)]
mod tcp;
#[cfg(test)]
mod timed_stage;
#[cfg(test)]
mod words;
