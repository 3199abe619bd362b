//! The records of the store: accounts and games as bytes, and the keys under which the store has them.
//!
//! The contract: `specs/Spelling.antt` says how each value is spelled, and each has one spelling. `write_record` writes
//! it, and `read_record` gives a record exactly where the bytes are the spelling of one.
//!
//! A text is read leniently, place by place, and what was read is written again: it was a record exactly where the
//! same bytes come back.
#![tactic(auto)]

mod accounts;
mod bounds;
mod bytes;
mod charges;
mod codes;
mod games;
mod half_list;
mod halves;
mod keys;
mod laws;
mod names;
mod numbers;
mod packed;
mod records;
mod stored_game;

pub use bounds::is_game;
pub use bytes::Bytes;
pub use chess_model::{Move, Terms, Variant};
pub use clock_ledger::Charge;
pub use fics_words::{Account, Handle, HandleKey};
pub use half_list::HalfList;
pub use keys::{account_key, game_key, game_number};
pub use laws::{one_record, played_by_steps};
pub use packed::PackedHalf;
pub use records::{Record, read_record, write_record};
pub use stored_game::{Half, StoredGame};
