//! The server that people connect to: a hall, a door, a keeper, and a worker for each connection.
//!
//! `serve_lobby` opens the hall with the lobby that it is given. The door's thread takes connections and starts a
//! worker for each, which serves it as a session of the hall; it joins those that have ended, hands their connections
//! back to the door, and makes a steward's turn over the keeper at each Quiet of the door and at the end. The contract
//! (`specs/Serving.antt`): the hall is given back with the pass into which all others were joined; what that pass has
//! seen is the whole history, from that lobby on; session k of it is the k-th connection that came, which was served
//! by exactly its session's entries and handed back under its number; session 0 is the steward's; and a table that
//! agreed with the lobby before agrees with that of the last state.
#![tactic(auto)]

mod attend;
mod hosting;
mod laws;
mod round;
mod serving;
mod settle;
mod worker;

pub use laws::{
    each_link_comes_back_as_its_own, no_game_is_lost, the_steward_makes_each_turn,
    want_of_memory_is_told,
};
pub use serving::serve_lobby;
