//! What a position is for its player, and what the text of a move shows.
ghost use Rattle.std.specs.Prelude.{◌≡◌};
ghost use Rattle.chess_model.specs.Result.{is_end};

use crate::man::Kind;
use crate::moves::Move;

/// What a position is for the player who is to move.
#[derive(Clone, Copy, PartialEq, Eq)]
pub enum State {
    Safe,
    Check,
    Mate,
    Stalemate,
}

impl State {
    /// Whether a game has ended in which the player to move is in that state (FIDE Laws, 5.1.1 and 5.2.1).
    pub fn is_end(self) -> bool
        ensures { result ≡ is_end self }
    {
        matches!(self, State::Mate | State::Stalemate)
    }
}

/// What the printed text of an allowed move needs.
#[derive(Clone, Copy)]
pub struct Shown {
    pub what: Move,
    /// The kind of the man that moves or is dropped, the king for castling.
    pub kind: Kind,
    pub takes: bool,
    /// Whether the text names the file of the origin.
    pub by_file: bool,
    /// Whether the text names the rank of the origin.
    pub by_rank: bool,
    /// The state after the move.
    pub after: State,
}
