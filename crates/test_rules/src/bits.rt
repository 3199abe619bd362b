//! Tests of the crates that keep a position as sets of squares. There is nothing else here: what is tested stands in
//! the crates below, and a crate with tests is proved twice.

mod placements;
mod positions;
