//! The position of one board, as contracts see it.
ghost use Rattle.std.specs.Prelude.{◌≡◌, ◌≢◌, ℕ, ◌<◌, []};
ghost use Rattle.std.specs.Option.{option_map};
ghost use Rattle.chess_model.specs.Squares.{file_of};
ghost use Rattle.chess_model.specs.Placement.{man_at};
ghost use Rattle.chess_model.specs.MoveList.{taken};
ghost use Rattle.chess_model.specs.Position.{Stands, hand_of_side};
ghost use Rattle.chess_model.specs.Holdings.{count_in};
ghost use Rattle.variant_rules.specs.Faces.{LooksLike, Receives};

use crate::changes::taken_by;
use bitboard_core::{Bits, square_of};
use chess_model::{Colour, Kind, Man, Move, Rights, Square, Variant, array_for};
use holdings_drops::Holdings;
use std::marker::Model;

/// The position of one board. Contracts see what chess_model calls a position: the men, whose turn it is, the en
/// passant square, the rights, the quiet count and both hands.
#[derive(Drop)]
pub struct Position {
    pub(crate) variant: Variant,
    pub(crate) men: Bits,
    pub(crate) to_move: Colour,
    pub(crate) en_passant: Option<Square>,
    pub(crate) rights: Rights,
    pub(crate) quiet: u16,
    pub(crate) white: Holdings,
    pub(crate) black: Holdings,
}

impl Model for Position {
    ghost use Rattle.chess_model.specs.Position.{Position};

    ghost Value = { Position };

    ghost view = { λ b. record {
      variant = b.variant;
      men = b.men;
      to_move = b.to_move;
      en_passant = b.en_passant;
      rights = b.rights;
      quiet = b.quiet;
      white = b.white;
      black = b.black;
    } };

    ghost use Rattle.variant_rules.specs.PositionFields.{IsOfTwoSets};

    ghost invariant = { IsOfTwoSets };
}

/// What a printed board shows of a position.
#[derive(Clone, Copy)]
pub struct PositionView {
    /// The man on each square, by the square's number.
    pub men: [Option<Man>; 64],
    pub to_move: Colour,
    /// The file, 0 to 7, of the double pawn push that the last half-move was.
    pub push: Option<u8>,
    /// White's short and long castling right, then Black's.
    pub rights: [bool; 4],
    /// Half-moves since the last pawn move, capture or drop; the count stays at 65,535.
    pub quiet: u16,
}

impl Position {
    /// The start of a game: the array, White to move, every right, empty hands.
    pub fn start(v: Variant) -> Position
        ensures variant { result.variant ≡ v }
        ensures stands { (b : ℕ) → Stands result [] b }
    {
        let men = Bits::of(&array_for(v));
        Position {
            variant: v,
            men,
            to_move: Colour::White,
            en_passant: None,
            rights: Rights {
                white_short: true,
                white_long: true,
                black_short: true,
                black_long: true,
            },
            quiet: 0,
            white: Holdings::empty(),
            black: Holdings::empty(),
        }
    }

    /// The same position once more.
    pub fn duplicate(&self) -> Position
        ensures { result ≡ self.now }
    {
        Position {
            variant: self.variant,
            men: self.men.duplicate(),
            to_move: self.to_move,
            en_passant: self.en_passant,
            rights: self.rights,
            quiet: self.quiet,
            white: self.white,
            black: self.black,
        }
    }

    /// The rules of the game.
    pub fn variant(&self) -> Variant
        ensures { result ≡ self.now.variant }
    {
        self.variant
    }

    /// Whose turn it is.
    pub fn to_move(&self) -> Colour
        ensures { result ≡ self.now.to_move }
    {
        self.to_move
    }

    /// The man on a square.
    pub fn man(&self, s: Square) -> Option<Man>
        ensures { result ≡ man_at self.now.men s }
    {
        self.men.man(s)
    }

    /// The men on all squares, by number.
    pub fn men(&self) -> &[Option<Man>; 64]
        ensures { result.now ≡ self.now.men }
    {
        self.men.squares()
    }

    /// The en passant square: the one that the last half-move passed over, where it was a double push of a pawn.
    pub fn en_passant(&self) -> Option<Square>
        ensures { result ≡ self.now.en_passant }
    {
        self.en_passant
    }

    /// The castling rights that stand.
    pub fn rights(&self) -> Rights
        ensures { result ≡ self.now.rights }
    {
        self.rights
    }

    /// Half-moves since the last pawn move, capture or drop; the count stays at 65,535.
    pub fn quiet(&self) -> u16
        ensures { result ≡ self.now.quiet }
    {
        self.quiet
    }

    /// The man that a half-move takes, en passant too.
    pub fn taken(&self, m: &Move) -> Option<Man>
        ensures { result ≡ taken self.now.men m.now }
    {
        taken_by(&self.men, m)
    }

    /// What a colour may drop.
    pub fn hand(&self, c: Colour) -> Holdings
        ensures { result ≡ hand_of_side self.now c }
    {
        match c {
            Colour::White => self.white,
            Colour::Black => self.black,
        }
    }

    /// A man of that colour and kind, which isn't a king, was captured on the other board of a bughouse game.
    pub fn receive(&mut self, c: Colour, k: Kind)
        requires variant { self.old.variant ≡ Variant.Bughouse }
        requires not_king { k ≢ Kind.King }
        requires room { count_in (hand_of_side self.old c) k < 16 }
        ensures { Receives self.old self.new c k }
    {
        match c {
            Colour::White => self.white.give(k),
            Colour::Black => self.black.give(k),
        }
    }

    /// What a printed board shows: the men, the side to move, the file of the last double push, the rights and the
    /// quiet count.
    pub fn look(&self) -> PositionView
        ensures { LooksLike self.now result }
    {
        PositionView {
            men: *self.men.squares(),
            to_move: self.to_move,
            push: self.push_file(),
            rights: [
                self.rights.white_short,
                self.rights.white_long,
                self.rights.black_short,
                self.rights.black_long,
            ],
            quiet: self.quiet,
        }
    }

    fn push_file(&self) -> Option<u8>
        ensures { result ≡ option_map file_of self.now.en_passant }
    {
        match self.en_passant {
            Some(s) => Some(s.file()),
            None => None,
        }
    }
}
