//! Tests of games that are played again from their half-moves: tables that are worked out by hand.

mod again;
mod games;
mod longest;
mod players;
mod replaying;
