//! Which half-moves are allowed, tried square by square.
ghost use Rattle.std.specs.Prelude.{◌≡◌, ◌↔◌, IsTrue};
ghost use Rattle.chess_model.specs.Placement.{man_at};
ghost use Rattle.chess_model.specs.Allowed.{IsPromotion, HasPromotion, GoesAs, IsPlainMove, right_of, IsUnattackedWay, IsFreeFor, IsFreeWay, CanCastle, CanDrop, IsMove, IsSafeAfter, Allowed};
ghost use Rattle.chess_model.specs.Tests.{is_allowed};

use crate::attack::{is_attacked, is_king_safe};
use crate::changes::with_move;
use crate::placement::{Men, man_on};
use crate::plain_board::PlainBoard;
use crate::reach::reaches;
use crate::square::{stepped, steps_between};
use chess_model::{Colour, Kind, Move, Rights, Square};
use rules_answers::{
    end_of_king, end_of_rook, has_drops, home_of_king, home_of_rook, last_rank_of, may_drop_on,
};

/// Whether a pawn may become that kind.
fn is_promotion_kind(promo: Option<Kind>) -> bool
    ensures { IsTrue result ↔ IsPromotion promo }
{
    match promo {
        Some(k) => match k {
            Kind::Pawn => false,
            Kind::Knight => true,
            Kind::Bishop => true,
            Kind::Rook => true,
            Kind::Queen => true,
            Kind::King => false,
        },
        None => false,
    }
}

fn has_promotion(c: Colour, k: Kind, to: Square, promo: Option<Kind>) -> bool
    ensures { IsTrue result ↔ HasPromotion c k to promo }
{
    match k {
        Kind::Pawn => {
            if to.rank() == last_rank_of(c) {
                is_promotion_kind(promo)
            } else {
                promo.is_none()
            }
        }
        Kind::Knight => promo.is_none(),
        Kind::Bishop => promo.is_none(),
        Kind::Rook => promo.is_none(),
        Kind::Queen => promo.is_none(),
        Kind::King => promo.is_none(),
    }
}

fn has_right(rights: Rights, c: Colour, long: bool) -> bool
    ensures { result ≡ right_of rights c long }
{
    match c {
        Colour::White => {
            if long {
                rights.white_long
            } else {
                rights.white_short
            }
        }
        Colour::Black => {
            if long {
                rights.black_long
            } else {
                rights.black_short
            }
        }
    }
}

/// Whether no square from a to b, both included, is attacked by that colour.
fn is_unattacked_way(men: &Men, by: Colour, a: Square, b: Square) -> bool
    ensures { IsTrue result ↔ IsUnattackedWay men.now by a b }
{
    let steps = steps_between(a, b);
    for k in 0..steps + 1 {
        if is_attacked(men, by, stepped(a, b, k)) {
            return false;
        }
    }
    true
}

/// Whether a square is empty, or the home of the king or of the rook that castle.
fn is_free_for(men: &Men, king: Square, rook: Square, s: Square) -> bool
    ensures { IsTrue result ↔ IsFreeFor men.now king rook s }
{
    if s == king || s == rook {
        return true;
    }
    man_on(men, s).is_none()
}

/// Whether each square from a to b, both included, is empty or the home of the king or of the rook that castle.
fn is_free_way(men: &Men, king: Square, rook: Square, a: Square, b: Square) -> bool
    ensures { IsTrue result ↔ IsFreeWay men.now king rook a b }
{
    let steps = steps_between(a, b);
    for k in 0..steps + 1 {
        if !is_free_for(men, king, rook, stepped(a, b, k)) {
            return false;
        }
    }
    true
}

impl PlainBoard {
    fn goes_as(&self, from: Square, to: Square, promo: Option<Kind>) -> bool
        ensures { IsTrue result ↔ GoesAs self.now from to promo (man_at self.now.men from) }
    {
        let Some(m) = man_on(&self.men, from) else {
            return false;
        };
        if m.colour != self.to_move {
            return false;
        }
        reaches(&self.men, self.en_passant, self.to_move, m.kind, from, to)
            && has_promotion(self.to_move, m.kind, to, promo)
    }

    fn is_plain_move(&self, from: Square, to: Square, promo: Option<Kind>) -> bool
        ensures { IsTrue result ↔ IsPlainMove self.now from to promo }
    {
        self.goes_as(from, to, promo)
    }

    fn can_castle(&self, long: bool) -> bool
        ensures { IsTrue result ↔ CanCastle self.now long }
    {
        let king = home_of_king(self.variant, self.to_move);
        let rook = home_of_rook(self.variant, self.to_move, long);
        let end = end_of_king(self.to_move, long);
        if !has_right(self.rights, self.to_move, long) {
            return false;
        }
        if !is_free_way(&self.men, king, rook, king, end) {
            return false;
        }
        let rook_end = end_of_rook(self.to_move, long);
        is_free_way(&self.men, king, rook, rook, rook_end)
            && is_unattacked_way(&self.men, self.to_move.opposite(), king, end)
    }

    fn can_drop(&self, k: Kind, to: Square) -> bool
        ensures { IsTrue result ↔ CanDrop self.now k to }
    {
        if !has_drops(self.variant) || self.hand(self.to_move).count(k) == 0 {
            return false;
        }
        man_on(&self.men, to).is_none() && may_drop_on(k, to)
    }

    /// Whether the move is allowed, the safety of the own king aside.
    pub(crate) fn is_move(&self, m: &Move) -> bool
        ensures { IsTrue result ↔ IsMove self.now m.now }
    {
        match m {
            Move::Plain { from, to, promo } => self.is_plain_move(*from, *to, *promo),
            Move::Castle { long } => self.can_castle(*long),
            Move::Drop { kind, to } => self.can_drop(*kind, *to),
        }
    }

    /// Whether the own king isn't attacked after the move.
    pub(crate) fn is_safe_after(&self, m: &Move) -> bool
        ensures { IsTrue result ↔ IsSafeAfter self.now m.now }
    {
        is_king_safe(
            &with_move(&self.men, self.variant, self.to_move, m),
            self.to_move,
        )
    }

    /// Whether the move is allowed (FIDE Laws, article 3; the rules of drops in crazyhouse and bughouse).
    pub fn allowed(&self, m: Move) -> bool
        ensures rule { IsTrue result ↔ Allowed self.now m }
        ensures value { result ≡ is_allowed self.now m }
    {
        self.is_allowed(&m)
    }

    pub(crate) fn is_allowed(&self, m: &Move) -> bool
        ensures { IsTrue result ↔ Allowed self.now m.now }
    {
        self.is_move(m) && self.is_safe_after(m)
    }
}
