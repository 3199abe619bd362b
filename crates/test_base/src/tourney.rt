//! Tests of a round robin: its rounds, what it refuses, and its table. There is nothing else here: what is tested
//! stands in the crates below, and a crate with tests is proved twice.

mod evenings;
mod rounds;
