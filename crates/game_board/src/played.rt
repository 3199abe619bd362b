//! Half-moves of a game with what they charged.
use chess_model::{Move, Shown};
use clock_ledger::Charge;
use fics_words::BoardNumber;
use variant_rules::Undo;

/// A half-move of a game, with the charge that it made to its colour's clock.
#[derive(Clone, Copy, PartialEq, Eq)]
pub struct Played {
    pub what: Move,
    /// None in an untimed game, and for the first half-move of each colour.
    pub charge: Option<Charge>,
}

/// A half-move on one of the boards of a game.
#[derive(Clone, Copy)]
pub struct Made {
    pub board: BoardNumber,
    pub what: Move,
}

/// What a board keeps of a half-move beside it.
#[derive(Clone, Copy)]
pub(crate) struct Step {
    /// What takes the half-move back.
    pub(crate) undo: Undo,
    /// What a printed board shows of it.
    pub(crate) shown: Shown,
}
