//! The slow board, beside which the fast one is tried.
ghost use Rattle.std.specs.Prelude.{◌≡◌, ℕ, ◌++◌, List, [], ◌∷◌, Option};
ghost use Rattle.chess_model.specs.Placement.{man_at};
ghost use Rattle.chess_model.specs.MoveList.{HalfMove};
ghost use Rattle.chess_model.specs.Position.{Position, Stands, hand_of_side};
ghost use Rattle.chess_model.specs.Allowed.{Allowed};
ghost use Rattle.chess_model.specs.Next.{next};

use crate::changes::with_move;
use crate::counts::{passed_square, quiet_after};
use crate::hand::hand_next;
use crate::placement::{Men, man_on};
use crate::rights::rights_left;
use chess_model::{Colour, Hand, Man, Move, Rights, Square, Variant, array_for};
use std::marker::Model;

/// The slow board: 64 squares, the rights, the quiet count and the two hands. Contracts see it as the position of
/// one board after a list of half-moves.
#[derive(Clone, Copy)]
pub struct PlainBoard {
    pub(crate) variant: Variant,
    pub(crate) men: Men,
    pub(crate) to_move: Colour,
    pub(crate) en_passant: Option<Square>,
    pub(crate) rights: Rights,
    pub(crate) quiet: u16,
    pub(crate) white: Hand,
    pub(crate) black: Hand,
}

impl Model for PlainBoard {
    ghost use Rattle.chess_model.specs.Position.{Position};

    ghost Value = { Position };

    ghost view = { λ b. record {
      variant = b.variant;
      men = b.men;
      to_move = b.to_move;
      en_passant = b.en_passant;
      rights = b.rights;
      quiet = b.quiet;
      white = b.white;
      black = b.black;
    } };

    ghost use Rattle.rules_plain.specs.PlainBoardFields.{IsOneSetEach};

    ghost invariant = { IsOneSetEach };

    ghost inverse = { λ p. record {
      variant = p.variant;
      men = p.men;
      to_move = p.to_move;
      en_passant = p.en_passant;
      rights = p.rights;
      quiet = p.quiet;
      white = p.white;
      black = p.black;
    } };
}

impl PlainBoard {
    /// The start of a game: the array, White to move, every right, empty hands.
    pub fn start(v: Variant) -> PlainBoard
        ensures variant { result.variant ≡ v }
        ensures stands { (b : ℕ) → Stands result [] b }
    {
        PlainBoard {
            variant: v,
            men: array_for(v),
            to_move: Colour::White,
            en_passant: None,
            rights: Rights {
                white_short: true,
                white_long: true,
                black_short: true,
                black_long: true,
            },
            quiet: 0,
            white: Hand::empty(),
            black: Hand::empty(),
        }
    }

    /// The man on a square.
    pub fn man(&self, s: Square) -> Option<Man>
        ensures { result ≡ man_at self.now.men s }
    {
        man_on(&self.men, s)
    }

    /// The rules of the game.
    pub fn variant(&self) -> Variant
        ensures { result ≡ self.now.variant }
    {
        self.variant
    }

    /// Who is to move.
    pub fn to_move(&self) -> Colour
        ensures { result ≡ self.now.to_move }
    {
        self.to_move
    }

    /// The en passant square: the one that the last half-move passed over, where it was a double push of a pawn.
    pub fn en_passant(&self) -> Option<Square>
        ensures { result ≡ self.now.en_passant }
    {
        self.en_passant
    }

    /// The castling rights that stand.
    pub fn rights(&self) -> Rights
        ensures { result ≡ self.now.rights }
    {
        self.rights
    }

    /// Half-moves since the last pawn move, capture or drop; the count stays at 65,535.
    pub fn quiet(&self) -> u16
        ensures { result ≡ self.now.quiet }
    {
        self.quiet
    }

    /// What a colour may drop.
    pub fn hand(&self, c: Colour) -> Hand
        ensures { result ≡ hand_of_side self.now c }
    {
        match c {
            Colour::White => self.white,
            Colour::Black => self.black,
        }
    }

    /// The men on all squares, by number.
    pub fn men(&self) -> &[Option<Man>; 64]
        ensures { result.now ≡ self.now.men }
    {
        &self.men
    }

    fn next(&self, m: &Move) -> PlainBoard
        requires { Allowed self.now m.now }
        ensures { result ≡ next self.now m.now }
    {
        PlainBoard {
            variant: self.variant,
            men: with_move(&self.men, self.variant, self.to_move, m),
            to_move: self.to_move.opposite(),
            en_passant: passed_square(&self.men, m),
            rights: rights_left(self.variant, self.rights, self.to_move, m),
            quiet: quiet_after(&self.men, self.quiet, m),
            white: hand_next(
                self.variant,
                self.white,
                Colour::White,
                &self.men,
                self.to_move,
                m,
            ),
            black: hand_next(
                self.variant,
                self.black,
                Colour::Black,
                &self.men,
                self.to_move,
                m,
            ),
        }
    }

    /// The board after an allowed half-move.
    pub fn after(&self, m: Move) -> PlainBoard
        requires { Allowed self.now m }
        ensures variant { result.variant ≡ self.now.variant }
        ensures stands { (T : List HalfMove) (b : ℕ) → Stands self.now T b
            → Stands result (T ++ record { board = b; what = m } ∷ []) b }
    {
        self.next(&m)
    }
}
