//! What a position is for the player to move.
ghost use Rattle.std.specs.Prelude.{◌≡◌, ℕ, ◌<◌, ◌↔◌, IsTrue, IsFalse, Option, Some, None, slice_set};
ghost use Rattle.chess_model.specs.Attacked.{IsKingSafe};
ghost use Rattle.chess_model.specs.Placement.{man_at, unpromoted, IsHeldAs};
ghost use Rattle.chess_model.specs.Allowed.{Allowed};
ghost use Rattle.chess_model.specs.Result.{state_of, HasAnswer, Shields};
ghost use Rattle.variant_rules.specs.Listing.{IsGuard, AreGoals};
ghost use Rattle.variant_rules.specs.States.{state_in, NoneFrom, CanMove, CanDropAny, CanBeShielded};

use crate::changes::{is_pawn_of_kind, unpromoted_man};
use crate::guard::Guard;
use crate::position::Position;
use crate::sights::sights_of;
use bitboard_core::{has_square, next_square, square_of};
use chess_model::{Kind, Man, Move, Square, State, Variant};
use rules_answers::has_drops;

/// The state by the variant, whether the player is in check, and whether there is an answer.
fn state_by(v: Variant, in_check: bool, has_answer: bool) -> State
    ensures { result ≡ state_of v in_check has_answer }
{
    match (in_check, has_answer) {
        (true, true) => State::Check,
        (true, false) => State::Mate,
        (false, true) => State::Safe,
        (false, false) => match v {
            Variant::Chess => State::Stalemate,
            Variant::Crazyhouse => State::Stalemate,
            Variant::Bughouse => State::Safe,
            Variant::Fischer(_) => State::Stalemate,
        },
    }
}

impl Position {
    fn may_go(&self, from: Square, to: Square, promo: Option<Kind>) -> bool
        ensures { IsTrue result ↔ Allowed self.now (Move.Plain from to promo) }
    {
        self.is_allowed(&Move::Plain { from, to, promo })
    }

    /// Whether some move from a to b is allowed.
    fn can_go(&self, a: Square, b: Square) -> bool
        ensures some { IsTrue result → CanMove self.now }
        ensures none { IsFalse result → (promo : Option Kind) → ¬ Allowed self.now (Move.Plain a b promo) }
    {
        if self.may_go(a, b, None) {
            return true;
        }
        if self.may_go(a, b, Some(Kind::Queen)) {
            return true;
        }
        if self.may_go(a, b, Some(Kind::Rook)) {
            return true;
        }
        if self.may_go(a, b, Some(Kind::Bishop)) {
            return true;
        }
        self.may_go(a, b, Some(Kind::Knight))
    }

    /// Whether the own man of that kind on a, which isn't a pawn, has a move that needn't be tried.
    fn goes_untried(&self, k: Kind, a: Square, goals: u64, guard: &Guard) -> bool
        requires held { IsHeldAs self.now.to_move k (man_at self.now.men a) }
        requires all { AreGoals self.now k a goals }
        requires guarded { IsGuard self.now guard.now }
        ensures { IsTrue result → CanMove self.now }
    {
        if is_pawn_of_kind(k) {
            return false;
        }
        if has_square(guard.from, a) {
            return false;
        }
        next_square(goals, 0) < 64
    }

    /// Whether some move of the own man of that kind on a is allowed.
    fn can_leave_as(&self, k: Kind, a: Square, guard: &Guard) -> bool
        requires held { IsHeldAs self.now.to_move k (man_at self.now.men a) }
        requires guarded { IsGuard self.now guard.now }
        ensures some { IsTrue result → CanMove self.now }
        ensures none { IsFalse result → NoneFrom self.now a }
    {
        let goals = self.goals(k, a, guard);
        if self.goes_untried(k, a, goals, guard) {
            return true;
        }
        let mut b = next_square(goals, 0);
        while b < 64 {
            if self.can_go(a, square_of(b)) {
                return true;
            }
            b = next_square(goals, b + 1);
        }
        false
    }

    fn is_own(&self, m: Man) -> bool
        ensures { IsTrue result ↔ (m.colour ≡ self.now.to_move) }
    {
        m.colour == self.to_move
    }

    /// Whether some move of the man m on a is allowed.
    fn can_leave_with(&self, m: Man, a: Square, guard: &Guard) -> bool
        requires stands { man_at self.now.men a ≡ Some m }
        requires guarded { IsGuard self.now guard.now }
        ensures some { IsTrue result → CanMove self.now }
        ensures none { IsFalse result → NoneFrom self.now a }
    {
        if !self.is_own(m) {
            return false;
        }
        self.can_leave_as(m.kind, a, guard)
    }

    /// Whether some move from a is allowed.
    fn can_leave(&self, a: Square, guard: &Guard) -> bool
        requires { IsGuard self.now guard.now }
        ensures some { IsTrue result → CanMove self.now }
        ensures none { IsFalse result → NoneFrom self.now a }
    {
        match self.man(a) {
            Some(m) => self.can_leave_with(m, a, guard),
            None => false,
        }
    }

    /// Whether some plain move is allowed.
    fn can_leave_some(&self, guard: &Guard) -> bool
        requires { IsGuard self.now guard.now }
        ensures some { IsTrue result → CanMove self.now }
        ensures none { IsFalse result → (a : ℕ) → a < 64 → NoneFrom self.now a }
    {
        for a in 0..64 {
            if self.can_leave(square_of(a), guard) {
                return true;
            }
        }
        false
    }

    fn may_castle(&self, long: bool) -> bool
        ensures { IsTrue result ↔ Allowed self.now (Move.Castle long) }
    {
        self.is_allowed(&Move::Castle { long })
    }

    /// Whether some plain move or castling is allowed.
    fn can_move(&self, guard: &Guard) -> bool
        requires { IsGuard self.now guard.now }
        ensures { IsTrue result ↔ CanMove self.now }
    {
        if self.can_leave_some(guard) {
            return true;
        }
        if self.may_castle(false) {
            return true;
        }
        self.may_castle(true)
    }

    fn may_drop(&self, kind: Kind, to: Square, guard: &Guard) -> bool
        requires { IsGuard self.now guard.now }
        ensures { IsTrue result ↔ Allowed self.now (Move.Drop kind to) }
    {
        if !has_square(guard.answers, to) {
            return false;
        }
        self.is_allowed(&Move::Drop { kind, to })
    }

    /// Whether some drop of that kind is allowed.
    fn can_drop_kind(&self, k: Kind, guard: &Guard) -> bool
        requires { IsGuard self.now guard.now }
        ensures some { IsTrue result → CanDropAny self.now }
        ensures none { IsFalse result → (to : ℕ) → to < 64 → ¬ Allowed self.now (Move.Drop k to) }
    {
        for to in 0..64 {
            if self.may_drop(k, square_of(to), guard) {
                return true;
            }
        }
        false
    }

    /// Whether some drop is allowed.
    fn can_drop_any(&self, guard: &Guard) -> bool
        requires { IsGuard self.now guard.now }
        ensures { IsTrue result ↔ CanDropAny self.now }
    {
        if !has_drops(self.variant) {
            return false;
        }
        if self.can_drop_kind(Kind::Pawn, guard) {
            return true;
        }
        if self.can_drop_kind(Kind::Knight, guard) {
            return true;
        }
        if self.can_drop_kind(Kind::Bishop, guard) {
            return true;
        }
        if self.can_drop_kind(Kind::Rook, guard) {
            return true;
        }
        self.can_drop_kind(Kind::Queen, guard)
    }

    fn is_free(&self, s: Square) -> bool
        ensures { IsTrue result ↔ (man_at self.now.men s ≡ None) }
    {
        self.men.man(s).is_none()
    }

    /// Whether an own knight put on a square would leave the king unattacked.
    fn is_shielded_on(&self, s: Square) -> bool
        ensures { IsTrue result
            ↔ IsKingSafe (slice_set self.now.men s (unpromoted self.now.to_move Kind.Knight)) self.now.to_move }
    {
        let man = Some(unpromoted_man(self.to_move, Kind::Knight));
        sights_of(&self.men, self.to_move)
            .with(self.to_move, s, man)
            .are_safe(self.to_move)
    }

    /// Whether a square is empty, and an own knight put there would leave the king unattacked.
    fn shields(&self, s: Square, guard: &Guard) -> bool
        requires { IsGuard self.now guard.now }
        ensures { IsTrue result ↔ Shields self.now s }
    {
        if !has_square(guard.answers, s) {
            return false;
        }
        self.is_free(s) && self.is_shielded_on(s)
    }

    /// Whether a man on some square would shield the king.
    #[tactic(auto, using(crate::proofs::StateLemmas::shielded))]
    fn can_be_shielded(&self, guard: &Guard) -> bool
        requires { IsGuard self.now guard.now }
        ensures some { IsTrue result → CanBeShielded self.now }
        ensures none { IsFalse result → (s : ℕ) → s < 64 → ¬ Shields self.now s }
    {
        for s in 0..64 {
            if self.shields(square_of(s), guard) {
                return true;
            }
        }
        false
    }

    /// Whether the player to move isn't stuck.
    fn has_answer(&self, guard: &Guard) -> bool
        requires { IsGuard self.now guard.now }
        ensures { IsTrue result ↔ HasAnswer self.now.variant self.now }
    {
        if self.can_move(guard) {
            return true;
        }
        match self.variant {
            Variant::Chess => self.can_drop_any(guard),
            Variant::Crazyhouse => self.can_drop_any(guard),
            Variant::Bughouse => self.can_be_shielded(guard),
            Variant::Fischer(_) => self.can_drop_any(guard),
        }
    }

    /// What the position is for the player to move: check, mate or stalemate (FIDE Laws, 3.9, 5.1.1 and 5.2.1), or none
    /// of these. In crazyhouse drops count as moves. In bughouse, where men may come at any time, mate is a check that
    /// no move on the board answers and no man put on an empty square would; there is no stalemate there.
    pub fn state(&self) -> State
        ensures { result ≡ state_in self.now }
    {
        let guard = self.guard();
        let answered = self.has_answer(&guard);
        state_by(self.variant, guard.in_check, answered)
    }
}
