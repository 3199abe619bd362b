//! The shelf: the adjourned games that wait to be resumed. With them stand who asks to resume which of them, and the
//! save orders by which a store learns of accounts and games.
//!
//! The contract: a `GameShelf` is seen as one value, `specs/Shelf.antt`: the games in the order of their numbers, the
//! orders in the order in which they were made, and the requests. Each call says which value stands afterwards. What
//! holds of every shelf is `specs/Facts.antt`, and what a store should hold is `specs/Wanted.antt`: each change makes
//! the orders that lead a store from the old to the new, and no others.
//!
//! What a change needs of memory is prepared beside the shelf, in a cell of its own, so that the change takes none.
#![tactic(auto)]

mod asking;
mod cells;
mod changes;
mod game_shelf;
mod games_of;
mod laws;
mod marks;
mod order;
mod rack;
mod request;
mod saving;
mod shelved;

pub use asking::Asking;
pub use cells::Cells;
pub use changes::ORDERS_AT_ONCE;
pub use game_records::{Half, StoredGame};
pub use game_shelf::GameShelf;
pub use games_of::GamesOf;
pub use laws::{
    games_are_found, orders_lead, requests_stand, saved_orders_are_the_first, shelves_are_sound,
    the_least_is_found,
};
pub use order::Order;
pub use rack::MOST_STORED;
pub use request::Request;
pub use saving::{GameSaving, Saving};
pub use shelved::Shelved;
