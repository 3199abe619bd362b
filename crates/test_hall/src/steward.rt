//! Tests of the steward's turns and of loading: accounts are saved at a keeper in memory, also one that fails in
//! between; stores with good and bad records are opened; and an adjourned game is saved, loaded and resumed.
//! Expected ends, and the bytes of a record, are worked out by hand from the rules of the server.
//!
//! A test is a table of rows. The turns are made by functions without contracts, so a test is proved quickly: what it
//! shows is shown by running it.

mod limits;
mod loads;
mod resumed;
mod turns;
