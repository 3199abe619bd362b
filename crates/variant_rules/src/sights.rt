//! Whether the kings of a colour are safe in a placement.
ghost use Rattle.std.specs.Prelude.{◌≡◌, ◌↔◌, IsTrue, Bool, Option, length, slice_set};
ghost use Rattle.chess_model.specs.Men.{is_held_as};
ghost use Rattle.chess_model.specs.declared.man.Man.{Man};
ghost use Rattle.chess_model.specs.Placement.{Placement, opposite};
ghost use Rattle.chess_model.specs.Attacked.{IsKingSafe};
ghost use Rattle.chess_model.specs.MoveList.{place_after, two_moved};
ghost use Rattle.bitboard_core.specs.Sets.{IsSetOf};
ghost use Rattle.bitboard_core.specs.Strikers.{man_place, is_placed, AreMenOf};
ghost use Rattle.variant_rules.specs.Sights.{AreSightsOf};

use crate::changes::{landed_man, takes_on, unpromoted_man};
use bitboard_core::{Bits, Side, are_safe};
use chess_model::{Colour, Kind, Man, Move, Square, Variant};
use rules_answers::{end_of_king, end_of_rook, home_of_king, home_of_rook};

/// What tells whether the kings of a colour are safe in a placement: the men of the other colour, all occupied squares,
/// and these kings. It follows half-moves while no placement is changed.
#[derive(Clone, Copy)]
pub(crate) struct Sights {
    enemies: Side,
    occupied: u64,
    kings: u64,
}

/// The set after the square has changed: it has the square where the new man is one of the set's.
#[inline]
pub(crate) fn written(set: u64, s: Square, holds: bool) -> u64
    ensures { (f : Option Man → Bool) (P : Placement) (man : Option Man) → length P ≡ 64 → IsSetOf f P set
        → f man ≡ holds → IsSetOf f (slice_set P s man) result }
{
    let bit = 1_u64 << s.number();
    if holds { set | bit } else { set & !bit }
}

#[inline]
pub(crate) fn is_held_as(c: Colour, k: Kind, man: Option<Man>) -> bool
    ensures { result ≡ is_held_as c k man }
{
    match man {
        Some(m) => m.colour.is_same(c) && m.kind.is_same(k),
        None => false,
    }
}

/// Whether a man of that colour and kind stands there.
#[inline]
fn is_man_of(c: Colour, k: Kind, man: Option<Man>) -> bool
    ensures { result ≡ is_placed (man_place c k) man }
{
    is_held_as(c, k, man)
}

/// The men of a colour after a square has changed.
#[inline]
fn side_with(side: Side, c: Colour, s: Square, man: Option<Man>) -> Side
    ensures { (P : Placement) → length P ≡ 64 → AreMenOf P c side → AreMenOf (slice_set P s man) c result }
{
    Side {
        pawns: written(side.pawns, s, is_man_of(c, Kind::Pawn, man)),
        knights: written(side.knights, s, is_man_of(c, Kind::Knight, man)),
        bishops: written(side.bishops, s, is_man_of(c, Kind::Bishop, man)),
        rooks: written(side.rooks, s, is_man_of(c, Kind::Rook, man)),
        queens: written(side.queens, s, is_man_of(c, Kind::Queen, man)),
        kings: written(side.kings, s, is_man_of(c, Kind::King, man)),
    }
}

/// What is seen of a placement by the kings of a colour.
#[inline]
pub(crate) fn sights_of(men: &Bits, c: Colour) -> Sights
    ensures { length men.now ≡ 64 → AreSightsOf men.now c result }
{
    Sights {
        enemies: men.side(c.opposite()),
        occupied: men.occupied(),
        kings: men.side(c).kings,
    }
}

impl Sights {
    /// The same after a square has changed.
    #[inline]
    pub(crate) fn with(self, c: Colour, s: Square, man: Option<Man>) -> Sights
        ensures { (P : Placement) → AreSightsOf P c self → AreSightsOf (slice_set P s man) c result }
    {
        Sights {
            enemies: side_with(self.enemies, c.opposite(), s, man),
            occupied: written(self.occupied, s, man.is_some()),
            kings: written(self.kings, s, is_man_of(c, Kind::King, man)),
        }
    }

    /// Whether no king of the colour stands on an attacked square.
    #[inline]
    pub(crate) fn are_safe(&self, c: Colour) -> bool
        ensures { (P : Placement) → AreSightsOf P c self.now → IsTrue result ↔ IsKingSafe P c }
    {
        are_safe(&self.enemies, c.opposite(), self.occupied, self.kings)
    }
}

/// What is seen after the men of two squares have left these for two others.
fn two_moved(men: &Bits, c: Colour, a: Square, b: Square, x: Square, y: Square) -> Sights
    ensures { length men.now ≡ 64 → AreSightsOf (two_moved men.now a b x y) c result }
{
    sights_of(men, c)
        .with(c, a, None)
        .with(c, b, None)
        .with(c, x, men.man(a))
        .with(c, y, men.man(b))
}

fn one_moved(men: &Bits, c: Colour, a: Square, b: Square, promo: Option<Kind>) -> Sights
    ensures { length men.now ≡ 64 → AreSightsOf (place_after Variant.Chess men.now c (Move.Plain a b promo)) c result }
{
    sights_of(men, c)
        .with(c, takes_on(men, a, b), None)
        .with(c, a, None)
        .with(c, b, landed_man(men.man(a), promo))
}

fn one_put(men: &Bits, c: Colour, kind: Kind, to: Square) -> Sights
    ensures { length men.now ≡ 64 → AreSightsOf (place_after Variant.Chess men.now c (Move.Drop kind to)) c result }
{
    sights_of(men, c).with(c, to, Some(unpromoted_man(c, kind)))
}

/// What the kings of the colour that makes a half-move would see after it.
pub(crate) fn sights_after(men: &Bits, v: Variant, c: Colour, m: &Move) -> Sights
    ensures { length men.now ≡ 64 → AreSightsOf (place_after v men.now c m.now) c result }
{
    match m {
        Move::Plain { from, to, promo } => one_moved(men, c, *from, *to, *promo),
        Move::Castle { long } => two_moved(
            men,
            c,
            home_of_king(v, c),
            home_of_rook(v, c, *long),
            end_of_king(c, *long),
            end_of_rook(c, *long),
        ),
        Move::Drop { kind, to } => one_put(men, c, *kind, *to),
    }
}
