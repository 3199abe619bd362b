//! The list of allowed half-moves.
ghost use Rattle.std.specs.Prelude.{◌≡◌, ◌≢◌, ℕ, ◌++◌, ◌<◌, ◌↔◌, ◌⊎◌, false, Some, None, IsTrue, IfOk, OnOk};
ghost use Rattle.chess_model.specs.Squares.{rank_of};
ghost use Rattle.chess_model.specs.Placement.{Placement, man_at, last_rank, IsHeldBy, IsHeldAs};
ghost use Rattle.chess_model.specs.Men.{is_held_by};
ghost use Rattle.chess_model.specs.Reach.{Reaches};
ghost use Rattle.chess_model.specs.Holdings.{count_in};
ghost use Rattle.chess_model.specs.Position.{hand_of_side};
ghost use Rattle.chess_model.specs.Allowed.{IsMove, IsSafeAfter, Allowed};
ghost use Rattle.chess_model.specs.AllMoves.{allowed_moves};
ghost use Rattle.bitboard_core.specs.Sets.{Has, IsSetOf};
ghost use Rattle.bitboard_core.specs.Strikers.{IsOccupied, IsReachSet};
ghost use Rattle.variant_rules.specs.Listing.{moves_between, moves_from_below, plain_moves_below, drops_below, drops_listed, if_allowed, IsLeftSafe, IsUnguarded, IsGuard, AreTargets, IsTargetSet, AreGoals};

use crate::changes::takes_en_passant;
use crate::guard::Guard;
use crate::position::Position;
use bitboard_core::{Bits, has_square, next_square, pawn_squares, square_of};
use chess_model::{Colour, Kind, Move, Square};
use memory::NoMemory;
use rules_answers::{has_drops, last_rank_of};
use std::alloc::Global;

/// Room for the allowed half-moves of nearly all positions.
const USUAL_ROOM: usize = 64;

/// The set with one square more.
pub(crate) fn with_square(set: u64, s: Square) -> u64
    ensures { (t : ℕ) → t < 64 → Has result t ↔ (Has set t ⊎ (t ≡ s)) }
{
    set | 1 << s.number()
}

/// The squares that a pawn reaches where s is the en passant square, from what it reaches else.
fn with_passed(set: u64, c: Colour, a: Square, s: Square) -> u64
    ensures { (P : Placement) → IsReachSet P c Kind.Pawn a set → AreTargets P (Some s) c Kind.Pawn a result }
{
    if has_square(pawn_squares(c, a), s) {
        with_square(set, s)
    } else {
        set
    }
}

/// The squares that a pawn of that colour on a reaches.
fn pawn_targets(men: &Bits, en_passant: Option<Square>, c: Colour, a: Square) -> u64
    ensures { AreTargets men.now en_passant c Kind.Pawn a result }
{
    let set = men.reach_of(c, Kind::Pawn, a);
    match en_passant {
        Some(s) => with_passed(set, c, a, s),
        None => set,
    }
}

/// The squares that a man of that colour and kind on a reaches.
fn targets_of(men: &Bits, en_passant: Option<Square>, c: Colour, k: Kind, a: Square) -> u64
    ensures { AreTargets men.now en_passant c k a result }
{
    match k {
        Kind::Pawn => pawn_targets(men, en_passant, c, a),
        Kind::Knight => men.reach_of(c, Kind::Knight, a),
        Kind::Bishop => men.reach_of(c, Kind::Bishop, a),
        Kind::Rook => men.reach_of(c, Kind::Rook, a),
        Kind::Queen => men.reach_of(c, Kind::Queen, a),
        Kind::King => men.reach_of(c, Kind::King, a),
    }
}

impl Position {
    /// The squares that a man of the player to move and of that kind on a reaches.
    pub(crate) fn targets(&self, k: Kind, a: Square) -> u64
        ensures { IsTargetSet self.now k a result }
    {
        targets_of(&self.men, self.en_passant, self.to_move, k, a)
    }

    /// The squares of the own men.
    fn own_squares(&self) -> u64
        ensures { IsSetOf (is_held_by self.now.to_move) self.now.men result }
    {
        self.men.held_by(self.to_move)
    }

    fn occupied_squares(&self) -> u64
        ensures { IsOccupied self.now.men result }
    {
        self.men.occupied()
    }

    /// Whether a move of a pawn has to be tried: it has to where the pawn is guarded, or takes en passant.
    fn pawn_is_tried(&self, a: Square, b: Square, tried: bool) -> bool
        ensures { (tried ≡ false → IsUnguarded self.now a) → result ≡ false → IsLeftSafe self.now a b }
    {
        tried || takes_en_passant(&self.men, a, b)
    }

    fn add_if_safe(&self, out: &mut Vec<Move>, m: &Move) -> Result<(), NoMemory>
        requires is_move { IsMove self.now m.now }
        ensures { OnOk result (out.new.items ≡ out.old.items ++ if_allowed self.now m.now) }
    {
        if !self.is_safe_after(m) {
            return Ok(());
        }
        out.push(*m)?;
        Ok(())
    }

    /// Appends a half-move that is one but for the safety of the own king, where that holds too; `tried` says whether
    /// it has to be tried.
    #[inline(always)]
    fn add(&self, out: &mut Vec<Move>, m: &Move, tried: bool) -> Result<(), NoMemory>
        requires is_move { IsMove self.now m.now }
        requires safe { tried ≡ false → IsSafeAfter self.now m.now }
        ensures { OnOk result (out.new.items ≡ out.old.items ++ if_allowed self.now m.now) }
    {
        if tried {
            return self.add_if_safe(out, m);
        }
        out.push(*m)?;
        Ok(())
    }

    fn is_on_last_rank(&self, b: Square) -> bool
        ensures { IsTrue result ↔ (rank_of b ≡ last_rank self.now.to_move) }
    {
        b.rank() == last_rank_of(self.to_move)
    }

    fn has_in_hand(&self, k: Kind) -> bool
        ensures { IsTrue result ↔ (0 < count_in (hand_of_side self.now self.now.to_move) k) }
    {
        0 < self.hand(self.to_move).count(k)
    }

    /// Appends the promotions of a pawn on a to b, on its last rank.
    fn add_promotions(
        &self,
        out: &mut Vec<Move>,
        a: Square,
        b: Square,
        tried: bool,
    ) -> Result<(), NoMemory>
        requires held { IsHeldAs self.now.to_move Kind.Pawn (man_at self.now.men a) }
        requires reached { Reaches self.now.men self.now.en_passant self.now.to_move Kind.Pawn a b }
        requires last { rank_of b ≡ last_rank self.now.to_move }
        requires safe { tried ≡ false → IsLeftSafe self.now a b }
        ensures { OnOk result (out.new.items ≡ out.old.items ++ moves_between self.now a b) }
    {
        self.add(out, &promoting(a, b, Kind::Queen), tried)?;
        self.add(out, &promoting(a, b, Kind::Rook), tried)?;
        self.add(out, &promoting(a, b, Kind::Bishop), tried)?;
        self.add(out, &promoting(a, b, Kind::Knight), tried)?;
        Ok(())
    }

    /// Appends the moves of a pawn on a to b.
    fn add_pawn_moves(
        &self,
        out: &mut Vec<Move>,
        a: Square,
        b: Square,
        tried: bool,
    ) -> Result<(), NoMemory>
        requires held { IsHeldAs self.now.to_move Kind.Pawn (man_at self.now.men a) }
        requires reached { Reaches self.now.men self.now.en_passant self.now.to_move Kind.Pawn a b }
        requires safe { tried ≡ false → IsUnguarded self.now a }
        ensures { OnOk result (out.new.items ≡ out.old.items ++ moves_between self.now a b) }
    {
        let tries = self.pawn_is_tried(a, b, tried);
        if self.is_on_last_rank(b) {
            return self.add_promotions(out, a, b, tries);
        }
        self.add(out, &going(a, b), tries)?;
        Ok(())
    }

    /// Appends the move of a king.
    fn add_king_move(&self, out: &mut Vec<Move>, a: Square, b: Square) -> Result<(), NoMemory>
        requires held { IsHeldAs self.now.to_move Kind.King (man_at self.now.men a) }
        requires reached { Reaches self.now.men self.now.en_passant self.now.to_move Kind.King a b }
        ensures { OnOk result (out.new.items ≡ out.old.items ++ moves_between self.now a b) }
    {
        if !self.king_may_go(a, b) {
            return Ok(());
        }
        out.push(going(a, b))?;
        Ok(())
    }

    /// Appends the move of a man that isn't a pawn.
    fn add_other_move(
        &self,
        out: &mut Vec<Move>,
        k: Kind,
        a: Square,
        b: Square,
        tried: bool,
    ) -> Result<(), NoMemory>
        requires other { k ≢ Kind.Pawn }
        requires held { IsHeldAs self.now.to_move k (man_at self.now.men a) }
        requires reached { Reaches self.now.men self.now.en_passant self.now.to_move k a b }
        requires safe { tried ≡ false → IsUnguarded self.now a }
        ensures { OnOk result (out.new.items ≡ out.old.items ++ moves_between self.now a b) }
    {
        self.add(out, &going(a, b), tried)?;
        Ok(())
    }

    /// Appends the moves of a man of that kind on a to b.
    fn add_moves(
        &self,
        out: &mut Vec<Move>,
        k: Kind,
        a: Square,
        b: Square,
        tried: bool,
    ) -> Result<(), NoMemory>
        requires held { IsHeldAs self.now.to_move k (man_at self.now.men a) }
        requires reached { Reaches self.now.men self.now.en_passant self.now.to_move k a b }
        requires safe { tried ≡ false → IsUnguarded self.now a }
        ensures { OnOk result (out.new.items ≡ out.old.items ++ moves_between self.now a b) }
    {
        match k {
            Kind::Pawn => self.add_pawn_moves(out, a, b, tried),
            Kind::King => self.add_king_move(out, a, b),
            _ => self.add_other_move(out, k, a, b, tried),
        }
    }

    /// The set with the en passant square, if there is one.
    fn with_passed_square(&self, set: u64) -> u64
        ensures { (t : ℕ) → t < 64 → ¬ Has result t → (¬ Has set t) × (self.now.en_passant ≢ Some t) }
    {
        match self.en_passant {
            Some(s) => with_square(set, s),
            None => set,
        }
    }

    /// The squares that a man of that kind on a reaches, less those where it answers no check.
    pub(crate) fn goals(&self, k: Kind, a: Square, guard: &Guard) -> u64
        requires held { IsHeldAs self.now.to_move k (man_at self.now.men a) }
        requires guarded { IsGuard self.now guard.now }
        ensures { AreGoals self.now k a result }
    {
        let targets = self.targets(k, a);
        match k {
            Kind::Pawn => targets & self.with_passed_square(guard.answers),
            Kind::Knight => targets & guard.answers,
            Kind::Bishop => targets & guard.answers,
            Kind::Rook => targets & guard.answers,
            Kind::Queen => targets & guard.answers,
            Kind::King => targets,
        }
    }

    /// Appends the moves of a man of that kind on a.
    fn add_moves_of(
        &self,
        out: &mut Vec<Move>,
        k: Kind,
        a: Square,
        guard: &Guard,
    ) -> Result<(), NoMemory>
        requires held { IsHeldAs self.now.to_move k (man_at self.now.men a) }
        requires guarded { IsGuard self.now guard.now }
        ensures { OnOk result (out.new.items ≡ out.old.items ++ moves_from_below self.now a 64) }
    {
        let tried = has_square(guard.from, a);
        let goals = self.goals(k, a, guard);
        let mut b = next_square(goals, 0);
        while b < 64 {
            self.add_moves(out, k, a, square_of(b), tried)?;
            b = next_square(goals, b + 1);
        }
        Ok(())
    }

    /// Appends the moves from a, on which an own man stands.
    fn add_moves_from(&self, out: &mut Vec<Move>, a: Square, guard: &Guard) -> Result<(), NoMemory>
        requires held { IsHeldBy self.now.to_move (man_at self.now.men a) }
        requires guarded { IsGuard self.now guard.now }
        ensures { OnOk result (out.new.items ≡ out.old.items ++ moves_from_below self.now a 64) }
    {
        match self.men.man(a) {
            Some(m) => self.add_moves_of(out, m.kind, a, guard),
            None => Ok(()),
        }
    }

    /// Appends all plain moves.
    fn add_plain_moves(&self, out: &mut Vec<Move>, guard: &Guard) -> Result<(), NoMemory>
        requires guarded { IsGuard self.now guard.now }
        ensures { OnOk result (out.new.items ≡ out.old.items ++ plain_moves_below self.now 64) }
    {
        let own = self.own_squares();
        let mut a = next_square(own, 0);
        while a < 64 {
            self.add_moves_from(out, square_of(a), guard)?;
            a = next_square(own, a + 1);
        }
        Ok(())
    }

    fn add_castling(&self, out: &mut Vec<Move>, long: bool) -> Result<(), NoMemory>
        ensures { OnOk result (out.new.items ≡ out.old.items ++ if_allowed self.now (Move.Castle long)) }
    {
        if self.can_castle(long) {
            return self.add(out, &Move::Castle { long }, true);
        }
        Ok(())
    }

    fn add_drop(
        &self,
        out: &mut Vec<Move>,
        k: Kind,
        to: Square,
        guard: &Guard,
    ) -> Result<(), NoMemory>
        requires guarded { IsGuard self.now guard.now }
        ensures { OnOk result (out.new.items ≡ out.old.items ++ if_allowed self.now (Move.Drop k to)) }
    {
        if self.can_drop(k, to) {
            return self.add(out, &Move::Drop { kind: k, to }, guard.in_check);
        }
        Ok(())
    }

    /// The empty squares where a man answers each check.
    fn free_squares(&self, guard: &Guard) -> u64
        requires guarded { IsGuard self.now guard.now }
        ensures { (k : Kind) (t : ℕ) → t < 64 → ¬ Has result t → ¬ Allowed self.now (Move.Drop k t) }
    {
        !self.occupied_squares() & guard.answers
    }

    /// Appends all drops of a kind.
    fn add_drops_of(&self, out: &mut Vec<Move>, k: Kind, guard: &Guard) -> Result<(), NoMemory>
        requires guarded { IsGuard self.now guard.now }
        ensures { OnOk result (out.new.items ≡ out.old.items ++ drops_below self.now k 64) }
    {
        if !self.has_in_hand(k) {
            return Ok(());
        }
        let free = self.free_squares(guard);
        let mut t = next_square(free, 0);
        while t < 64 {
            self.add_drop(out, k, square_of(t), guard)?;
            t = next_square(free, t + 1);
        }
        Ok(())
    }

    /// Appends all drops.
    fn add_drops(&self, out: &mut Vec<Move>, guard: &Guard) -> Result<(), NoMemory>
        requires guarded { IsGuard self.now guard.now }
        ensures { OnOk result (out.new.items ≡ out.old.items ++ drops_listed self.now) }
    {
        if !has_drops(self.variant) {
            return Ok(());
        }
        self.add_drops_of(out, Kind::Pawn, guard)?;
        self.add_drops_of(out, Kind::Knight, guard)?;
        self.add_drops_of(out, Kind::Bishop, guard)?;
        self.add_drops_of(out, Kind::Rook, guard)?;
        self.add_drops_of(out, Kind::Queen, guard)?;
        Ok(())
    }

    /// All allowed half-moves: plain moves by origin, target and promotion (queen, rook, bishop, knight), then short
    /// and long castling, then drops by kind (pawn, knight, bishop, rook, queen) and square.
    pub fn moves(&self, alloc: Global) -> Result<Vec<Move>, NoMemory>
        ensures { IfOk result (λ out. out.items ≡ allowed_moves self.now) }
    {
        let mut out = Vec::with_capacity(alloc, USUAL_ROOM)?;
        let guard = self.guard();
        self.add_plain_moves(&mut out, &guard)?;
        self.add_castling(&mut out, false)?;
        self.add_castling(&mut out, true)?;
        self.add_drops(&mut out, &guard)?;
        Ok(out)
    }
}

#[inline(always)]
pub(crate) fn going(from: Square, to: Square) -> Move
    ensures { result ≡ Move.Plain from to None }
{
    Move::Plain {
        from,
        to,
        promo: None,
    }
}

#[inline(always)]
fn promoting(from: Square, to: Square, kind: Kind) -> Move
    ensures { result ≡ Move.Plain from to (Some kind) }
{
    Move::Plain {
        from,
        to,
        promo: Some(kind),
    }
}
