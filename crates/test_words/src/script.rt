//! Tests of replay scripts: what lines read as, and which lines may follow which; and of numbers that are drawn.

mod draws;
mod orders;
mod seats;
mod sessions;
