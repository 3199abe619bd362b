//! A desk: a game that is played, its players, and the viewers who are told of it.
//!
//! A desk is vacant, or it has a game with a serial, its seats and boards (two seats and one board, or four and two),
//! and a feed of items in which each viewer has a place. The contract: `act` carries out one row of a table
//! (`specs/Acts.antt`), which says by the old desk, the session, the moment, the serial and the act alone why the act
//! is refused, what it replies and what stands afterwards. A refusal changes nothing, and a player can always leave,
//! since leaving takes no memory.
//!
//! A game that was adjourned is kept as `shelve` gives it, which always replays, and goes on at a desk by `restore`,
//! which plays it again: boards, hands and clocks are as they were (`specs/ShelfLaws.antt`).
#![tactic(auto)]

mod accept_offer;
mod acked;
mod acts;
mod decline_offer;
mod desk;
mod ended;
mod ends;
mod fetch;
mod finish;
mod flag;
mod game;
mod hands;
mod laws;
mod leave;
mod leave_laws;
mod make;
mod occasion;
mod offer_laws;
mod offering;
mod playing;
mod present;
mod remark;
mod resign;
mod restore;
mod seating;
mod seats;
mod shelf_laws;
mod shelve;
mod show;
mod sight;
mod tally;
mod views;
mod watch;

pub use acts::{DeskAct, DeskReply};
pub use chess_model::Why;
pub use desk::Desk;
pub use ended::Ended;
pub use laws::{
    acts_keep_the_game, acts_keep_the_players, boards_are_known_by_their_games, men_stay_whole,
};
pub use leave_laws::leaving_adjourns_or_loses;
pub use observer_feed::Cursor;
pub use offer_book::Offer;
pub use offer_laws::half_moves_clear_offers;
pub use seats::{board_of, colour_at};
pub use shelf_laws::{resuming_restores, shelved_games_replay};
pub use sight::viewer_of;
pub use style12_writer::{BoardView, Item, ItemList};
