//! Laws of sessions that serve links: what none of them does, whatever comes over its link.
//!
//! The contract: no session that serves a link tells save orders as saved, however that ends. So where each session but
//! the steward's serves a link, the steward alone tells orders as saved, in the whole history and in each part of it.
//! That is what a store's table needs to agree with the lobby while players are at work.
#![tactic(auto)]

mod laws;

pub use laws::only_the_steward_saves;
