//! Tests of stamped lines and of the reader of a link's lines.

mod cuts;
mod limits;
mod pieces;
mod places;
mod stamps;
mod telling;
