//! Games that are played again.
ghost use Rattle.std.specs.Prelude.{◌≡◌, ◌<◌, IfOk, IfSome, IsTrue, length, slice_get};
ghost use Rattle.std.specs.List.{AllByRecursion};
ghost use Rattle.chess_model.specs.Limits.{most_halves};
ghost use Rattle.game_records.specs.Bounds.{IsCharge};
ghost use Rattle.fics_words.specs.Boards.{board_place};
ghost use Rattle.desk_boards.specs.Halves.{played_of};
ghost use Rattle.desk_boards.specs.Replaying.{goes_on, replayed, takes_half};

use crate::boards::Boards;
use chess_model::Terms;
use clock_ledger::Moment;
use fics_words::BoardNumber;
use game_board::{GameBoard, Played};
use game_records::{Half, PackedHalf};
use memory::NoMemory;
use std::alloc::Global;

impl Boards {
    /// The boards of a game on these terms after these half-moves, each with the charge that it has, where the players
    /// to move are thinking from `moment`, in milliseconds. None where a board doesn't take one of them in its turn: it
    /// isn't allowed, comes after an end or as the 1,201st of its board, or has a charge where none belongs, or none
    /// where one does.
    pub fn replay(
        alloc: Global,
        terms: Terms,
        halves: &[PackedHalf],
        moment: Moment,
    ) -> Result<Option<Boards>, NoMemory>
        requires charges { AllByRecursion (λ h. IsCharge h.charge) halves.now }
        ensures { IfOk result (λ boards. boards ≡ replayed terms halves.now moment) }
    {
        let mut boards = Boards::start(alloc, terms, moment)?;
        for half in halves {
            let it = half.unpacked();
            let Some(board) = BoardNumber::of(it.board) else {
                return Ok(None);
            };
            let played = played_of(&it);
            if !boards.takes(board, &played) {
                return Ok(None);
            }
            boards.put(board, &played);
        }
        Ok(Some(boards))
    }

    /// Whether the boards take a half-move at this one, with the charge that it has.
    fn takes(&self, board: BoardNumber, half: &Played) -> bool
        ensures value { result ≡ takes_half self.now board half.now }
        ensures short { IsTrue result → IfSome (slice_get self.now (board_place board))
            (λ b. length b.list < most_halves) }
    {
        let Some(own) = self.at(board) else {
            return false;
        };
        if !own.takes(half) {
            return false;
        }
        match self.at(board.other()) {
            Some(other) => goes_on(other),
            None => true,
        }
    }
}

/// A half-move of a record, as a board has it.
fn played_of(half: &Half) -> Played
    ensures { result ≡ played_of half.now }
{
    Played {
        what: half.what,
        charge: half.charge,
    }
}

/// Whether a board is at no end.
fn goes_on(board: &GameBoard) -> bool
    ensures { result ≡ goes_on board.now }
{
    !board.state().is_end()
}
