//! What forty guests type in an evening, drawn from a seed, and what they are answered: a plain model of the lobby,
//! written from the rules in docs/RULES.md, which shares nothing with the server. `test_session` compares the two.

mod draws;
mod model;
mod names;
mod orders;
mod rules;

pub use self::draws::Draws;
pub use self::model::Model;
pub use self::names::name_of;
pub use self::orders::{GUESTS, Order, drawn, typed};
pub use self::rules::answered;
