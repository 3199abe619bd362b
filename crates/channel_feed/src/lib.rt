//! What players tell others by: channels, lists of names, and the lines that wait for a player.
//!
//! The contract: channels and name lists are lists in the order in which their rows came, and each call is the stated
//! change of the list; lines wait in order, at most 512, and one for which there is room takes no memory.
#![tactic(auto)]

mod channels;
mod counts;
mod laws;
mod names;
mod waiting;

pub use channels::{Channels, Membership};
pub use laws::{
    joining_is_being_in, leaving_all_is_being_in_none, leaving_is_being_out, names_come_and_go,
};
pub use names::NameList;
pub use waiting::Waiting;
