//! A turn of the steward, made with a hall's first pass, and how serving ends.
//!
//! `turn` makes one at the present moment, and says how it ended and whether memory ran out in it; `last_turn` has the
//! pass look at the whole history before it and behind it. The contracts (`specs/Turns.antt`): the pass made the
//! entries of one turn and no others, the keeper had its calls alone, a table that agreed still agrees, and want of
//! memory is told only with word that memory ran out. `ask` takes the door's next answer, and
//! `end_of` tells how serving ends (`specs/Stopping.antt`): of several causes the end is that of the first.
#![tactic(auto)]

mod asking;
mod end;
mod one_turn;
mod shared;
mod supply;

pub use asking::{Asked, ask};
pub use end::{DoorEnd, ServeEnd, end_of, is_short};
pub use one_turn::{last_turn, turn};
pub use shared::Shared;
pub use supply::Supply;
