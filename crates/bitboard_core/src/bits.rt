//! A placement as sets of squares, by kind and colour, and how half-moves change it.
ghost use Rattle.std.specs.Prelude.{◌≡◌, ◌≢◌, ℕ, ◌<◌, IsSome, Some, None, slice_set, replicate};
ghost use Rattle.chess_model.specs.Placement.{man_at};
ghost use Rattle.chess_model.specs.AllMoves.{kind_place};
ghost use Rattle.chess_model.specs.Men.{is_held_by};
ghost use Rattle.bitboard_core.specs.Sets.{IsSetOf};
ghost use Rattle.bitboard_core.specs.Strikers.{side_place, man_place, IsOccupied, AreMenOf, IsStruckSet, IsStrikerSet, IsReachSet, IsReachOf, AreSetsOf};

use crate::sides::{Side, strikers};
use crate::squares::square_of;
use crate::steps::{
    bishop_squares, king_squares, knight_squares, pawn_pushes, pawn_squares, queen_squares,
    rook_squares,
};
use chess_model::{Colour, Kind, Man, Square};
use std::marker::Model;

/// A placement as sets of squares, beside the man on each square. Contracts see the placement.
#[derive(Drop)]
pub struct Bits {
    squares: [Option<Man>; 64],
    men: [u64; 12],
    promoted: u64,
    occupied: u64,
}

impl Model for Bits {
    ghost use Rattle.chess_model.specs.Placement.{Placement};

    ghost Value = { Placement };

    ghost view = { λ b. b.squares };

    ghost use Rattle.bitboard_core.specs.BitsFields.{AreKept};

    ghost invariant = { AreKept };
}

/// The sets of a placement: bit s of a set stands for square s. The twelve sets of men are White's pawns, knights,
/// bishops, rooks, queens and kings, then Black's; promoted men are in the set of the kind that they became, too.
#[derive(Clone, Copy)]
pub struct BitSets {
    pub men: [u64; 12],
    pub promoted: u64,
    pub occupied: u64,
}

/// The place of a man's set among the twelve.
#[inline]
fn place_of(m: Man) -> usize
    ensures value { result ≡ man_place m.colour m.kind }
    ensures within { result < 12 }
{
    first_of(m.colour) + kind_of(m.kind)
}

#[inline]
fn first_of(c: Colour) -> usize
    ensures value { result ≡ side_place c }
    ensures within { result < 7 }
{
    match c {
        Colour::White => 0,
        Colour::Black => 6,
    }
}

#[inline]
fn kind_of(k: Kind) -> usize
    ensures value { result ≡ kind_place k }
    ensures within { result < 6 }
{
    match k {
        Kind::Pawn => 0,
        Kind::Knight => 1,
        Kind::Bishop => 2,
        Kind::Rook => 3,
        Kind::Queen => 4,
        Kind::King => 5,
    }
}

impl Bits {
    /// The empty board.
    #[tactic(auto, using(crate::proofs::BitsLemmas::kept_empty))]
    pub fn empty() -> Bits
        ensures { result ≡ replicate 64 None }
    {
        Bits {
            squares: [None; 64],
            men: [0; 12],
            promoted: 0,
            occupied: 0,
        }
    }

    /// The placement with these men on its squares.
    pub fn of(squares: &[Option<Man>; 64]) -> Bits
        ensures { result ≡ squares.now }
    {
        let mut bits = Bits::empty();
        for s in 0..64_u8 {
            bits.place(square_of(s), squares[s as usize]);
        }
        bits
    }

    /// The same placement once more.
    pub fn duplicate(&self) -> Bits
        ensures { result ≡ self.now }
    {
        Bits {
            squares: self.squares,
            men: self.men,
            promoted: self.promoted,
            occupied: self.occupied,
        }
    }

    /// The man on a square.
    #[inline]
    pub fn man(&self, s: Square) -> Option<Man>
        ensures { result ≡ man_at self.now s }
    {
        self.squares[s.number() as usize]
    }

    /// The men on all squares, by number.
    #[inline]
    pub fn squares(&self) -> &[Option<Man>; 64]
        ensures { result.now ≡ self.now }
    {
        &self.squares
    }

    /// A man comes to an empty square.
    #[inline]
    pub fn put(&mut self, s: Square, man: Man)
        requires { man_at self.old s ≡ None }
        ensures { self.new ≡ slice_set self.old s (Some man) }
    {
        let at = s.number() as usize;
        let bit = 1_u64 << at;
        let place = place_of(man);
        self.squares[at] = Some(man);
        self.men[place] |= bit;
        self.occupied |= bit;
        if man.promoted {
            self.promoted |= bit;
        }
    }

    /// The man of an occupied square is taken off.
    #[inline]
    pub fn lift(&mut self, s: Square) -> Man
        requires { IsSome (man_at self.old s) }
        ensures lifted { man_at self.old s ≡ Some result }
        ensures left { self.new ≡ slice_set self.old s None }
    {
        let at = s.number() as usize;
        let man = self.squares[at].unwrap();
        let bit = 1_u64 << at;
        let place = place_of(man);
        self.squares[at] = None;
        self.men[place] &= !bit;
        self.occupied &= !bit;
        self.promoted &= !bit;
        man
    }

    /// A square has this man afterwards, or none.
    #[inline]
    pub fn place(&mut self, s: Square, man: Option<Man>)
        ensures { self.new ≡ slice_set self.old s man }
    {
        if self.man(s).is_some() {
            self.lift(s);
        }
        match man {
            Some(m) => self.put(s, m),
            None => {}
        }
    }

    /// The occupied squares.
    #[inline]
    pub fn occupied(&self) -> u64
        ensures { IsOccupied self.now result }
    {
        self.occupied
    }

    /// The men of a colour, by kind.
    #[inline]
    pub fn side(&self, c: Colour) -> Side
        ensures { AreMenOf self.now c result }
    {
        let first = first_of(c);
        Side {
            pawns: self.men[first],
            knights: self.men[first + 1],
            bishops: self.men[first + 2],
            rooks: self.men[first + 3],
            queens: self.men[first + 4],
            kings: self.men[first + 5],
        }
    }

    /// The squares of a colour's men.
    #[inline]
    pub fn held_by(&self, c: Colour) -> u64
        ensures { IsSetOf (is_held_by c) self.now result }
    {
        let side = self.side(c);
        side.pawns | side.knights | side.bishops | side.rooks | side.queens | side.kings
    }

    /// What a man of that colour strikes, without the squares of its own men.
    #[inline]
    fn without_own(&self, struck: u64, c: Colour) -> u64
        ensures { (k : Kind) (s : ℕ) → k ≢ Kind.Pawn → IsStruckSet self.now c k s struck
            → IsReachSet self.now c k s result }
    {
        struck & !self.held_by(c)
    }

    /// The squares that a pawn of that colour on s reaches, en passant aside.
    #[inline]
    fn pawn_reach(&self, c: Colour, s: Square) -> u64
        ensures { IsReachSet self.now c Kind.Pawn s result }
    {
        pawn_pushes(c, s, self.occupied()) | pawn_squares(c, s) & self.held_by(c.opposite())
    }

    /// The squares that a man of that colour and kind on s reaches; castling, en passant and the safety of the own king
    /// aside (FIDE Laws, 3.1 to 3.8.1).
    pub fn reach_of(&self, c: Colour, k: Kind, s: Square) -> u64
        ensures { IsReachSet self.now c k s result }
    {
        match k {
            Kind::Pawn => self.pawn_reach(c, s),
            Kind::Knight => self.without_own(knight_squares(s), c),
            Kind::Bishop => self.without_own(bishop_squares(s, self.occupied()), c),
            Kind::Rook => self.without_own(rook_squares(s, self.occupied()), c),
            Kind::Queen => self.without_own(queen_squares(s, self.occupied()), c),
            Kind::King => self.without_own(king_squares(s), c),
        }
    }

    /// The squares that the man on an occupied square reaches; castling, en passant and the safety of the own king
    /// aside (FIDE Laws, 3.1 to 3.8.1).
    pub fn reach(&self, s: Square) -> u64
        requires { IsSome (man_at self.now s) }
        ensures { IsReachOf self.now s result (man_at self.now s) }
    {
        let man = self.man(s).unwrap();
        self.reach_of(man.colour, man.kind, s)
    }

    /// The squares of the men of a colour that strike s.
    #[inline]
    pub fn attackers(&self, s: Square, by: Colour) -> u64
        ensures { IsStrikerSet self.now by s result }
    {
        strikers(&self.side(by), by, self.occupied, s)
    }

    /// All sets of the placement.
    pub fn sets(&self) -> BitSets
        ensures { AreSetsOf self.now result }
    {
        BitSets {
            men: self.men,
            promoted: self.promoted,
            occupied: self.occupied,
        }
    }
}
