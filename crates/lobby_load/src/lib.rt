//! A store is loaded: a lobby is made of what a keeper holds.
//!
//! The contract: `specs/BadRows.antt` says which keys of a store are bad, and `specs/Loaded.antt` what a loaded lobby
//! is. `load` gives a lobby at its opening whose accounts and stored games are what the keeper holds, each under its
//! key and nothing else, or names the least bad key. `open_store` does so and tells a sink of a bad record.
#![tactic(auto)]

mod loading;
mod opening;
mod refusals;
mod rows;

pub use loading::load;
pub use opening::open_store;
pub use refusals::{LoadRefusal, StoreFault};
