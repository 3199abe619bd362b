//! The replay script: an evening of the server, written down line by line.
//!
//! A script may begin with a seat line, which says who plays what at the start. Each other line says what comes from
//! one session at one moment.
//!
//! - The contract of the readers: `read_script` and `read_seat` give a value exactly where the line is the one text of
//! a
//!   value in range, so no line has two readings (`one_reading`).
//! - The rule on the order of the lines stands in `specs/Order.antt`: a session connects once, before all else that
//! comes
//!   from it, nothing comes from it once it has left, and moments never fall. `Attendance` is told one line after
//! another,
//!   and says of the next whether it may come.
//! - Beside scripts stand `Draws`, the numbers from which an evening is made: a sequence that its seed fixes.
#![tactic(auto)]

mod draws;
mod laws;
mod order;
mod script;
mod seat_line;
mod words;

pub use draws::{Draws, draws_begin};
pub use laws::{one_reading, order_by_steps, order_of_two};
pub use order::Attendance;
pub use script::{ScriptEvent, ScriptLine, read_script};
pub use seat_line::{SeatLine, read_seat};
