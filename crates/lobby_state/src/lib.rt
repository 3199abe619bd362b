//! The lobby: who is there, what is offered, asked and said, and which games are to be. It knows who is registered and
//! who is in the hall, which seeks and challenges stand, who is in which channel, who are partners, which adjourned
//! games lie on the shelf and who asks to resume them, and which desks are in use for which game. The lists of each
//! kind are kept by crates of their own; here stands what the acts of members do to them all.
//!
//! The contract: what an act does, by the lobby before, the session and the act, stands in one record of its own file
//! in `specs/`: why it is refused, what it replies, and what stands afterwards. A refusal and running out of memory
//! leave the lobby as it was, and every lobby is well-formed. What may need a desk too is done in three steps: `plan`
//! says by the lobby alone which desk and what is to be done there, `reserve` makes ready what that needs of memory and
//! changes nothing, and `commit`, which takes no memory, does the lobby's share.
//!
//! An act is a room of its own: a file of `src/acts/` and one of `specs/`. What acts keep is one table of `proofs/`.
#![tactic(auto)]

mod acts;
mod broadcast;
mod challenges;
mod desk_in_use;
mod dispatch;
mod game;
mod hearers;
mod inbox;
mod laws;
mod lobby;
mod member;
mod members;
mod name_row;
mod own_places;
mod pairing;
mod reserve;
mod roster;
mod said;
mod seeks;
mod shelf_room;
mod start_plan;
mod terms;
mod told;
mod wants;

pub use acts::name_list::WhichList;
pub use acts::{LobbyAct, LobbyReply, PairAct, Plan};
pub use desk_in_use::DeskInUse;
pub use game::{DESKS, ListedGame};
pub use inbox::Inbox;
pub use laws::{
    acts_keep, games_lists_what_is_found, guests_have_the_least_name, in_use_tells_the_desks,
    lists_keep_away, lobbies_are_well_formed, plans_keep, starts_settle_offers,
    waiting_lines_are_given_in_order, who_lists_each_member_once,
};
pub use lobby::Lobby;
pub use member::Member;
pub use reserve::Ready;
pub use said::said_line;
pub use simul_control::{Place, Places};
pub use told::ReplyLists;
pub use wants::Wants;
