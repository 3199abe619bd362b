//! A game that waits to be resumed.

use crate::half_list::HalfList;
use chess_model::{Move, Terms};
use clock_ledger::Charge;
use collections::Listed;
use fics_words::Handle;

/// A half-move of a stored game.
#[derive(Clone, Copy)]
pub struct Half {
    /// 1, or 2 for the second board of a pair.
    pub board: u8,
    pub what: Move,
    /// What the half-move took off its player's clock, where it took anything.
    pub charge: Option<Charge>,
}

/// A game that waits to be resumed.
#[derive(Drop)]
pub struct StoredGame {
    /// On which terms it is played; a stored game asks for no colour.
    pub terms: Terms,
    /// White and Black, or for a pair those of the first board and those of the second.
    pub names: Listed<Handle>,
    /// The half-moves of all boards, in the order in which they were made.
    pub halves: HalfList,
}
