//! The pairs of a store: save orders are carried out at a keeper, and what a keeper loads is read.
//!
//! The contract: `specs/Carrying.antt` says what carrying orders out makes of a keeper's table, and `specs/Rows.antt`
//! which pairs of a key and a record are rows of a store: an account under the key of its name, or a game that replays
//! under the key of a number. `carry_out` carries out a beginning of its orders, and all of them where it answers
//! `Done`; where the keeper failed, the next order alone is in doubt. `read_row` gives a row exactly where the pair is
//! one.
#![tactic(auto)]

mod carrying;
mod laws;
mod reading;

pub use carrying::{Carried, carry_out};
pub use laws::acts_lead_along;
pub use reading::{StoreRow, read_row};
