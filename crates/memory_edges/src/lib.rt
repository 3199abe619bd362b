//! Fakes in memory of what the server needs from outside, for tests.
//!
//! The contract: each fake meets its trait of `edge_traits` and tells all that it holds: what is read, written, taken
//! and kept, byte by byte and record by record; which links came through a door, and which came back under which
//! numbers. A call fails exactly where the fake's list says so, and each failure is counted.
#![tactic(auto)]

mod fault_plan;
mod mem_door;
mod mem_keeper;
mod mem_link;
mod mem_sink;
mod mem_source;
mod steps;

pub use mem_door::MemDoor;
pub use mem_keeper::MemKeeper;
pub use mem_link::MemLink;
pub use mem_sink::MemSink;
pub use mem_source::MemSource;
pub use steps::LinkStep;
