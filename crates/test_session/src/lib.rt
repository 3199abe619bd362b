//! Tests of a session: which acts it makes in the server's history, and what it writes; in a folder of its own of the
//! server of one thread, by acts alone; and forty guests beside a plain model of the lobby. Expected acts and texts are
//! those of the rules of a session, written out by hand.
//!
//! A test is a table, and what it does stands in functions without contracts, so it is proved quickly: what it shows is
//! shown by running it.
#![tactic(auto)]

#[cfg(test)]
mod acts;
#[cfg(test)]
mod broken;
#[cfg(test)]
mod calls;
#[cfg(test)]
mod evenings;
#[cfg(test)]
mod faults;
#[cfg(test)]
mod forty_guests;
#[cfg(test)]
mod guests;
#[cfg(test)]
mod leaving;
#[cfg(test)]
mod links;
#[cfg(test)]
mod logins;
#[cfg(test)]
mod offers;
#[cfg(test)]
mod opponent;
#[cfg(test)]
mod script_clock;
#[cfg(test)]
mod server;
#[cfg(test)]
mod short;
#[cfg(test)]
mod simuls;
#[cfg(test)]
mod stamps;
#[cfg(test)]
mod watching;
