//! One session: what it does for whatever comes from its player. It does so over any server that runs its acts.
//!
//! What comes is an input. A session's course says which acts it makes for an input and what it writes: the next act
//! follows from the input, from what the session remembers and from the replies to the acts before it, and so does the
//! text. What a session decides up to the visits of a round, and as it leaves, is in its stages, machines without a
//! server: what stands between an act and its reply, and what comes next. One loop drives a course; a second one visits
//! the games of a round, as the session knew them when the visits began, and gives up those that are over; a third one
//! drives leaving. The contract: `take` and `leave` make exactly the acts of the course, in order, and `take` appends
//! exactly its text, whoever runs the acts.
#![tactic(auto)]

mod begin;
mod command;
mod first;
mod follow;
mod framing;
mod game_acts;
mod input;
mod laws;
mod leaving;
mod leaving_stage;
mod login;
mod moves;
mod next;
mod own_commands;
mod reaction;
mod reader;
mod session;
mod session_memory;
mod stage;
mod taking;
mod texts;
mod visiting;
mod watching;
mod way;

pub use framing::Framing;
pub use input::{Input, Wrote};
pub use laws::{
    courses, givers_turn_behind_half_moves, inputs_end_with_the_round, only_quit_leaves,
    the_login_makes_one_act,
};
pub use session::Session;
pub use session_asks::{LinkMark, Standing};
