//! The real outside: standard streams, TCP, the system's clock and a keeper without a store, as the traits of
//! `edge_traits`.
//!
//! Each adapter meets its trait: what it answers, and that it fails only where its count of faults rose. What a stream,
//! a socket or a clock holds isn't told by any of them.
#![tactic(auto)]

mod no_store;
mod pace;
mod std_streams;
mod tcp_door;
mod tcp_peer;
mod wall_clock;

pub use no_store::NoStore;
pub use std_streams::{StdSink, StdSource};
pub use tcp_door::TcpDoor;
pub use tcp_peer::TcpPeer;
pub use wall_clock::WallClock;
