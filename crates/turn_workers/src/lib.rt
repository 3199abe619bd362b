//! Workers in threads that add to two counters. However their acts fall, the counters hold in the end what all of them
//! added.
#![tactic(auto)]

mod chained;
mod looking;
mod workers;

pub use chained::{open_gate, three_acts, tries_beside};
pub use looking::{act_behind_a_look, one_act_seen};
pub use workers::{three_counters, two_counters};
