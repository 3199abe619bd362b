//! The words that every part of the server shares: refusals with their numbers and names, failures, handles
//! of players, lines of text, decimals, numbers of boards and desks, accounts, players and their variables.
//!
//! The contract: a reader gives a value exactly where its grammar has one, and the value stands for the very
//! bytes that were read; a refusal has one number and one name; a call that takes memory answers its error
//! only when out of memory.
#![tactic(auto)]

mod account;
mod board_number;
mod desk_number;
mod fail;
mod handle;
mod line;
mod lines;
mod number;
mod player;
mod refusal;
mod seats;
mod variable;

pub use account::{Account, Digest};
pub use board_number::BoardNumber;
pub use desk_number::DeskNumber;
pub use fail::Fail;
pub use handle::{Handle, HandleKey, MOST_HANDLE_LETTERS};
pub use line::{Line, MOST_LINE_BYTES, MOST_TEXT_BYTES};
pub use lines::Lines;
pub use number::{read_number, write_number};
pub use player::Player;
pub use refusal::{Refusal, write_refusal};
pub use seats::{Opponents, Seats};
pub use variable::Variable;
