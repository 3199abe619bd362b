//! Tests of games that outlast their server: who plays adjourns by the lines that they type, the steward saves the
//! game, and it is resumed in a new server that opens with what was saved. Each evening is had over the server of one
//! thread and in the hall. Expected texts are those of the rules of a session, written out by hand.
//!
//! A test is a table, and what it does stands in functions almost without contracts, so it is proved quickly: what it
//! shows is shown by running it.

mod chess;
mod evenings;
mod halls;
mod one_thread;
mod pair;
mod talks;
