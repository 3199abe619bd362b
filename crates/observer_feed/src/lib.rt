//! A feed: what viewers are told is a list of items, and each viewer has a place in it.
//!
//! The contract: each call is the stated change of the items, the viewers and the room; who looks on is given each item
//! that is added meanwhile exactly once and in order, whatever others do; an item for which there is room takes no
//! memory. A refusal and running out of memory change nothing.
#![tactic(auto)]

mod cursor;
mod feed;
mod laws;

pub use cursor::{Backlog, Cursor};
pub use feed::Feed;
pub use laws::{looking_on_begins_and_ends, viewers_have_one_place, viewers_miss_nothing};
