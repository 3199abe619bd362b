//! Tests of the lists that players keep of one another: offers at a desk, channels, names and waiting lines, and of the
//! feed of a game.

mod channels;
mod feeds;
mod offers;
mod waiting;
