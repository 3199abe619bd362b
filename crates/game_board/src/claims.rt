//! The draws that a player may claim.
ghost use Rattle.std.specs.Prelude.{◌≡◌, true, ℕ, ◌<◌, ◌≤◌, IsTrue, IfSome, IfNone, length};
ghost use Rattle.chess_model.specs.Claims.{same_position};
ghost use Rattle.game_board.specs.Board.{position_of};
ghost use Rattle.game_board.specs.Claim.{has_claims, is_third_time, claim_answer};
ghost use Rattle.game_board.specs.Steps.{position_at};

use crate::game_board::GameBoard;
use chess_model::{Variant, Why};
use fics_words::Refusal;
use variant_rules::{Position, is_same_position};

/// The half-moves of both players that make fifty moves.
const FIFTY_MOVES: u16 = 100;

fn has_claims(variant: Variant) -> bool
    ensures { result ≡ has_claims variant }
{
    match variant {
        Variant::Chess => true,
        Variant::Crazyhouse => false,
        Variant::Bughouse => false,
        Variant::Fischer(_) => true,
    }
}

impl GameBoard {
    /// Claims a draw, in chess and in Fischer random alone: why the game is one, by fifty moves of each player without
    /// a pawn's move and without a capture, or else by a position that stands at least for the third time. Refuses with
    /// `NothingToClaim`.
    #[tactic(auto, unfolding(crate::specs::Claim::claim_answer))]
    pub fn claim_draw(&self) -> Result<Why, Refusal>
        ensures { result ≡ claim_answer self.now }
    {
        if !has_claims(self.terms.variant) {
            return Err(Refusal::NothingToClaim);
        }
        if self.position().quiet() >= FIFTY_MOVES {
            return Ok(Why::Fifty);
        }
        if self.is_third_time() {
            return Ok(Why::Threefold);
        }
        Err(Refusal::NothingToClaim)
    }

    /// Whether the position stands at least for the third time: whether two earlier ones are the same.
    fn is_third_time(&self) -> bool
        requires { has_claims self.now.terms.variant ≡ true }
        ensures { result ≡ is_third_time self.now }
    {
        let mut past = self.position().duplicate();
        match self.last_same(&mut past, self.list.len()) {
            Some(second) => self.last_same(&mut past, second).is_some(),
            None => false,
        }
    }

    /// Goes back from the position after the first `from` half-moves to the last one before it that is the same as the
    /// present position, and gives how many half-moves led to that.
    fn last_same(&self, past: &mut Position, from: usize) -> Option<usize>
        requires claims { has_claims self.now.terms.variant ≡ true }
        requires within { from ≤ length self.now.list }
        requires stands { past.old ≡ position_at self.now.terms.variant self.now.number self.now.list from }
        ensures found { IfSome result (λ k. (k < from) × IsTrue (same_position (position_of self.now) past.new)
            × (past.new ≡ position_at self.now.terms.variant self.now.number self.now.list k)) }
        ensures last { IfSome result (λ k. (j : ℕ) → k < j → j < from → ¬ IsTrue
            (same_position (position_of self.now)
            (position_at self.now.terms.variant self.now.number self.now.list j))) }
        ensures none { IfNone result ((j : ℕ) → j < from → ¬ IsTrue
            (same_position (position_of self.now)
            (position_at self.now.terms.variant self.now.number self.now.list j))) }
    {
        let mut k = from;
        while k > 0 {
            k -= 1;
            past.unmake(self.steps.as_slice()[k].undo);
            if is_same_position(self.position(), past) {
                return Some(k);
            }
        }
        None
    }
}
