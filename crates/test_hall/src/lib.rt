//! Tests of the hall: games played at its seats and over the server of one thread by the same acts with the same
//! replies, what two sessions write there, schedules of acts while a gate holds one with a part out, and four threads
//! whose replies are those of one. Expected replies and texts are those of the rules of the server, written out by
//! hand.
//!
//! A test is a table, and what it does stands in functions almost without contracts, so it is proved quickly: what it
//! shows is shown by running it.
#![tactic(auto)]

#[cfg(test)]
mod games;
#[cfg(test)]
mod gates;
#[cfg(test)]
mod halls;
#[cfg(test)]
mod held;
#[cfg(test)]
mod others;
#[cfg(test)]
mod parts;
#[cfg(test)]
mod passes;
#[cfg(test)]
mod replies;
#[cfg(test)]
mod schedules;
#[cfg(test)]
mod sessions;
#[cfg(test)]
mod stamps;
#[cfg(test)]
mod steps;
#[cfg(test)]
mod steward;
#[cfg(test)]
mod store;
#[cfg(test)]
mod threads;
