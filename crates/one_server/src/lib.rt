//! The server of one thread: acts, their steps, legal histories, and what runs a session.
//!
//! A state is 129 parts: the lobby, and the desks 1 to 128. An act is lent the lobby, or its desk, or both where the
//! lobby's plan names a desk; its reply and the new parts follow from these parts, the session and the act alone
//! (`specs/House.antt`). The contract: `OneServer` answers each act as that step does in the state of the history so
//! far, and keeps that history, which is legal; `Runner` says what a session may know of whatever runs its acts, this
//! server or a hall of threads.
#![tactic(auto)]

mod act;
mod clearing;
mod copies;
mod house;
mod laws;
mod lent;
mod part;
mod parts;
mod reply;
mod resuming;
mod runner;
mod seat;
mod server;
mod steps;

pub use act::{Act, Timed, moment_of};
pub use house::House;
pub use laws::{
    acts_keep_to_their_parts, every_board_keeps_a_true_score, every_end_names_its_winner,
    every_game_keeps_its_men, every_reply_can_be_told, every_state_agrees,
    every_stored_game_replays, parts_are_lent, resuming_restores,
};
pub use lent::{alone, first_part, second_part, together};
pub use part::Part;
pub use reply::{PairReply, Reply};
pub use runner::{Runner, answered};
pub use seat::OneSeat;
pub use server::OneServer;
