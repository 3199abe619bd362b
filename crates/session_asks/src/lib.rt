//! What a session asks of its games, and where its answers leave it.
//!
//! The contract: a session goes to each of its games, those that it plays and then those at which it looks on; a game
//! is asked for its news by the act that fetches them; nothing more will come from it where its answer says so; and who
//! asked to enter stands where the answer says: it is in, it is asked for the password, or it begins anew.
#![tactic(auto)]

mod entering;
mod news;
mod places_left;
mod standing;
mod visit;
mod visits_left;

pub use entering::admitted;
pub use news::{fetch_at, says_over};
pub use standing::{LinkMark, Standing};
pub use visit::Visit;
pub use visits_left::VisitsLeft;
