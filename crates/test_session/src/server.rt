//! Tests of the server of one thread: a game played by acts alone with each reply, and the refusals of these acts.
//! Expected replies are those of the rules of the server, written out by hand.
//!
//! A test is a table of steps, which `test_server_steps` makes.

mod games;
mod limits;
mod refusals;
mod resuming;
