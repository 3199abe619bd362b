//! What the door's thread and the workers share.

use edge_traits::{Clock, Gate};
use hall_core::Hall;
use std::alloc::Global;
use std::sync::Wait;
use std::thread::Threads;

/// What the door's thread and the workers share: the hall, its clock and its gate, and with what they wait and take
/// memory.
#[derive(Drop)]
pub struct Shared<'a, T: Threads + Wait, C: Clock, G: Gate> {
    pub rt: &'a T,
    pub alloc: Global,
    pub hall: &'a Hall,
    pub clock: &'a C,
    pub gate: &'a G,
}
