//! The places of a player: the seats that it has at desks in use, which of them is the present one, and whether it
//! gives a simul, in which it plays at many boards at once.
//!
//! The contract: a `Places` is whether its player gives, the number of the present place, and the list of the places in
//! the order in which they came. Each call is a stated change of these. As many turns as there are places come back to
//! the place where they began, and a turn back undoes a turn on.
#![tactic(auto)]

mod direction;
mod laws;
mod place;
mod places;

pub use direction::Direction;
pub use laws::{turns_come_round, ways_undo_each_other};
pub use place::Place;
pub use places::Places;
