//! Tests of PGN text: tables of texts with what stands in them, of stored games with their exports, and of stores with
//! what `pgn` writes of them, all written out by hand.

mod exported;
mod lacking;
mod reading;
mod stored;
mod telling;
