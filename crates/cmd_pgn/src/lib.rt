//! The command `pgn`: the chess games of a store, as PGN text.
//!
//! The contract of `pgn`: the store is loaded, and exactly the exports of its chess games are written, in ascending
//! order of the numbers under which it has them; games of other variants are passed over. At a bad record nothing is
//! written but the line that tells of it. The keeper's table stays as it is.
#![tactic(auto)]

mod exporting;
mod laws;
mod writing;

pub use exporting::pgn;
pub use laws::a_store_has_one_list_of_games;
