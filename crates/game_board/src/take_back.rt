//! Taking half-moves back.
ghost use Rattle.std.specs.Prelude.{◌≡◌, ◌≢◌, ◌<◌, ◌≤◌, length};
ghost use Rattle.game_board.specs.TakeBack.{take_back_reply, take_back_after, board_without_last};

use crate::clocks::take_charge_off;
use crate::game_board::GameBoard;
use chess_model::Variant;
use clock_ledger::Moment;
use fics_words::Refusal;

impl GameBoard {
    /// Takes the last `n` half-moves back, with their charges, at `moment`, in milliseconds, from which the player to
    /// move is thinking then. Refuses with `TooFewMoves` where `n` is 0 or the list has fewer half-moves; a refusal
    /// changes nothing. What is taken back still counts as played.
    pub fn take_back(&mut self, n: u16, moment: Moment) -> Result<(), Refusal>
        requires variant { self.old.terms.variant ≢ Variant.Bughouse }
        requires order { self.old.begin ≤ moment }
        ensures reply { result ≡ take_back_reply self.old n }
        ensures after { self.new ≡ take_back_after self.old n moment }
    {
        if n == 0 || self.list.len() < usize::from(n) {
            return Err(Refusal::TooFewMoves);
        }
        for _taken in 0..n {
            self.take_last_back();
        }
        self.begin = moment;
        self.kept = None;
        Ok(())
    }

    /// Takes the last half-move back, with its charge.
    fn take_last_back(&mut self)
        requires variant { self.old.terms.variant ≢ Variant.Bughouse }
        requires some { 0 < length self.old.list }
        ensures { self.new ≡ board_without_last self.old 1 }
    {
        let mover = self.to_move().opposite();
        let Some(half) = self.list.pop() else {
            return;
        };
        let Some(step) = self.steps.pop() else {
            return;
        };
        let _made = self.all.pop();
        self.position.unmake(step.undo);
        take_charge_off(&mut self.white, &mut self.black, mover, half.charge);
        self.resumed = self.resumed.min(self.list.len() as u16);
    }
}
