//! Which half-moves are allowed.
ghost use Rattle.std.specs.Prelude.{◌≡◌, ◌<◌, ◌↔◌, IsTrue, Some};
ghost use Rattle.chess_model.specs.Placement.{man_at};
ghost use Rattle.chess_model.specs.Reach.{Strikes, Reaches};
ghost use Rattle.chess_model.specs.Attacked.{IsAttacked};
ghost use Rattle.chess_model.specs.Tests.{is_allowed};
ghost use Rattle.chess_model.specs.Allowed.{IsPromotion, HasPromotion, GoesAs, IsPlainMove, right_of, IsUnattackedWay, IsFreeFor, IsFreeWay, CanCastle, CanDrop, IsMove, IsSafeAfter, Allowed};
ghost use Rattle.chess_model.specs.Squares.{distance, along, toward};

use crate::position::Position;
use crate::sights::sights_after;
use bitboard_core::{Bits, has_square, is_struck, pawn_squares};
use chess_model::{Colour, Kind, Move, Rights, Square};
use rules_answers::{
    end_of_king, end_of_rook, has_drops, home_of_king, home_of_rook, last_rank_of, may_drop_on,
};

/// Whether a pawn may become that kind.
fn is_promotion_kind(promo: Option<Kind>) -> bool
    ensures { IsTrue result ↔ IsPromotion promo }
{
    match promo {
        Some(k) => match k {
            Kind::Pawn => false,
            Kind::Knight => true,
            Kind::Bishop => true,
            Kind::Rook => true,
            Kind::Queen => true,
            Kind::King => false,
        },
        None => false,
    }
}

fn has_promotion(c: Colour, k: Kind, to: Square, promo: Option<Kind>) -> bool
    ensures { IsTrue result ↔ HasPromotion c k to promo }
{
    match k {
        Kind::Pawn => {
            if to.rank() == last_rank_of(c) {
                is_promotion_kind(promo)
            } else {
                promo.is_none()
            }
        }
        Kind::Knight => promo.is_none(),
        Kind::Bishop => promo.is_none(),
        Kind::Rook => promo.is_none(),
        Kind::Queen => promo.is_none(),
        Kind::King => promo.is_none(),
    }
}

fn has_right(rights: Rights, c: Colour, long: bool) -> bool
    ensures { result ≡ right_of rights c long }
{
    match c {
        Colour::White => {
            if long {
                rights.white_long
            } else {
                rights.white_short
            }
        }
        Colour::Black => {
            if long {
                rights.black_long
            } else {
                rights.black_short
            }
        }
    }
}

/// How many steps a king needs from a to b on an empty board.
fn steps_between(a: Square, b: Square) -> u8
    ensures value { result ≡ distance a b }
    ensures within { result < 8 }
{
    a.file().abs_diff(b.file()).max(a.rank().abs_diff(b.rank()))
}

fn toward_by(from: u8, to: u8, k: u8) -> u8
    requires from { from < 8 }
    requires to { to < 8 }
    requires steps { k < 8 }
    ensures value { result ≡ toward from to k }
    ensures within { result < 8 }
{
    from.saturating_sub(k).max((from + k).min(to))
}

/// The square k steps from a toward b.
fn stepped(a: Square, b: Square, k: u8) -> Square
    requires { k < 8 }
    ensures { result ≡ along a b k }
{
    Square::on(
        toward_by(a.file(), b.file(), k),
        toward_by(a.rank(), b.rank(), k),
    )
}

/// Whether that colour attacks s.
fn is_attacked(men: &Bits, by: Colour, s: Square) -> bool
    ensures { IsTrue result ↔ IsAttacked men.now by s }
{
    is_struck(&men.side(by), by, men.occupied(), s)
}

/// Whether no square from a to b, both included, is attacked by that colour.
fn is_unattacked_way(men: &Bits, by: Colour, a: Square, b: Square) -> bool
    ensures { IsTrue result ↔ IsUnattackedWay men.now by a b }
{
    let steps = steps_between(a, b);
    for k in 0..steps + 1 {
        if is_attacked(men, by, stepped(a, b, k)) {
            return false;
        }
    }
    true
}

/// Whether a square is empty, or the home of the king or of the rook that castle.
fn is_free_for(men: &Bits, king: Square, rook: Square, s: Square) -> bool
    ensures { IsTrue result ↔ IsFreeFor men.now king rook s }
{
    if s == king || s == rook {
        return true;
    }
    men.man(s).is_none()
}

/// Whether each square from a to b, both included, is empty or the home of the king or of the rook that castle.
fn is_free_way(men: &Bits, king: Square, rook: Square, a: Square, b: Square) -> bool
    ensures { IsTrue result ↔ IsFreeWay men.now king rook a b }
{
    let steps = steps_between(a, b);
    for k in 0..steps + 1 {
        if !is_free_for(men, king, rook, stepped(a, b, k)) {
            return false;
        }
    }
    true
}

fn is_that(en_passant: Option<Square>, b: Square) -> bool
    ensures { IsTrue result ↔ (en_passant ≡ Some b) }
{
    en_passant == Some(b)
}

/// Whether a pawn on a strikes b.
fn strikes_as_pawn(men: &Bits, c: Colour, a: Square, b: Square) -> bool
    ensures { IsTrue result ↔ Strikes men.now c Kind.Pawn a b }
{
    has_square(pawn_squares(c, a), b)
}

/// Whether a pawn on a strikes the en passant square b.
fn strikes_passed(men: &Bits, en_passant: Option<Square>, c: Colour, a: Square, b: Square) -> bool
    ensures { IsTrue result ↔ ((en_passant ≡ Some b) × Strikes men.now c Kind.Pawn a b) }
{
    is_that(en_passant, b) && strikes_as_pawn(men, c, a, b)
}

fn pawn_reaches(men: &Bits, en_passant: Option<Square>, c: Colour, a: Square, b: Square) -> bool
    ensures { IsTrue result ↔ Reaches men.now en_passant c Kind.Pawn a b }
{
    if has_square(men.reach_of(c, Kind::Pawn, a), b) {
        return true;
    }
    strikes_passed(men, en_passant, c, a, b)
}

/// Whether a man of that colour and kind on a reaches b.
fn reaches(men: &Bits, en_passant: Option<Square>, c: Colour, k: Kind, a: Square, b: Square) -> bool
    ensures { IsTrue result ↔ Reaches men.now en_passant c k a b }
{
    match k {
        Kind::Pawn => pawn_reaches(men, en_passant, c, a, b),
        Kind::Knight => has_square(men.reach_of(c, Kind::Knight, a), b),
        Kind::Bishop => has_square(men.reach_of(c, Kind::Bishop, a), b),
        Kind::Rook => has_square(men.reach_of(c, Kind::Rook, a), b),
        Kind::Queen => has_square(men.reach_of(c, Kind::Queen, a), b),
        Kind::King => has_square(men.reach_of(c, Kind::King, a), b),
    }
}

impl Position {
    fn goes_as(&self, from: Square, to: Square, promo: Option<Kind>) -> bool
        ensures { IsTrue result ↔ GoesAs self.now from to promo (man_at self.now.men from) }
    {
        let Some(m) = self.men.man(from) else {
            return false;
        };
        if m.colour != self.to_move {
            return false;
        }
        reaches(&self.men, self.en_passant, self.to_move, m.kind, from, to)
            && has_promotion(self.to_move, m.kind, to, promo)
    }

    fn is_plain_move(&self, from: Square, to: Square, promo: Option<Kind>) -> bool
        ensures { IsTrue result ↔ IsPlainMove self.now from to promo }
    {
        self.goes_as(from, to, promo)
    }

    pub(crate) fn can_castle(&self, long: bool) -> bool
        ensures { IsTrue result ↔ CanCastle self.now long }
    {
        if !has_right(self.rights, self.to_move, long) {
            return false;
        }
        let king = home_of_king(self.variant, self.to_move);
        let rook = home_of_rook(self.variant, self.to_move, long);
        let end = end_of_king(self.to_move, long);
        if !is_free_way(&self.men, king, rook, king, end) {
            return false;
        }
        let rook_end = end_of_rook(self.to_move, long);
        is_free_way(&self.men, king, rook, rook, rook_end)
            && is_unattacked_way(&self.men, self.to_move.opposite(), king, end)
    }

    pub(crate) fn can_drop(&self, k: Kind, to: Square) -> bool
        ensures { IsTrue result ↔ CanDrop self.now k to }
    {
        if !has_drops(self.variant) || self.hand(self.to_move).count(k) == 0 {
            return false;
        }
        self.men.man(to).is_none() && may_drop_on(k, to)
    }

    /// Whether the move is allowed, the safety of the own king aside.
    pub(crate) fn is_move(&self, m: &Move) -> bool
        ensures { IsTrue result ↔ IsMove self.now m.now }
    {
        match m {
            Move::Plain { from, to, promo } => self.is_plain_move(*from, *to, *promo),
            Move::Castle { long } => self.can_castle(*long),
            Move::Drop { kind, to } => self.can_drop(*kind, *to),
        }
    }

    /// Whether the own king isn't attacked after the move.
    pub(crate) fn is_safe_after(&self, m: &Move) -> bool
        ensures { IsTrue result ↔ IsSafeAfter self.now m.now }
    {
        sights_after(&self.men, self.variant, self.to_move, m).are_safe(self.to_move)
    }

    /// Whether the move is allowed (FIDE Laws, article 3; the rules of drops in crazyhouse and bughouse).
    pub fn allowed(&self, m: Move) -> bool
        ensures rule { IsTrue result ↔ Allowed self.now m }
        ensures value { result ≡ is_allowed self.now m }
    {
        self.is_allowed(&m)
    }

    pub(crate) fn is_allowed(&self, m: &Move) -> bool
        ensures { IsTrue result ↔ Allowed self.now m.now }
    {
        self.is_move(m) && self.is_safe_after(m)
    }
}
