//! Tests of the examining of stored games. Lines are worked out by hand from the rules of chess and of board lines.
//! There is nothing else here: what is tested stands in the crates below, and a crate with tests is proved twice.

mod evenings;
mod games;
mod long_ways;
mod running;
