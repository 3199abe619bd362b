//! Making a half-move and taking it back.
ghost use Rattle.std.specs.Prelude.{◌≡◌, ℕ, ◌<◌, List, [], ◌∷◌, ◌++◌};
ghost use Rattle.chess_model.specs.MoveList.{HalfMove, taken};
ghost use Rattle.chess_model.specs.Placement.{man_at};
ghost use Rattle.chess_model.specs.Allowed.{Allowed};
ghost use Rattle.chess_model.specs.Next.{next};
ghost use Rattle.chess_model.specs.Position.{Position, Stands};
ghost use Rattle.variant_rules.specs.Undos.{captured_by, changed_squares, IsUndoOf, IsUndoneBy};

use crate::changes::{
    change_men, hand_next, passed_square, quiet_after, rights_left, taken_by, takes_on,
};
use crate::position::Position;
use bitboard_core::Bits;
use chess_model::{Colour, Man, Move, Rights, Square, Variant};
use holdings_drops::Holdings;
use rules_answers::{end_of_king, end_of_rook, home_of_king, home_of_rook};

/// Four squares, which may repeat each other.
#[derive(Clone, Copy)]
struct Squares {
    one: Square,
    two: Square,
    three: Square,
    four: Square,
}

/// What stood on a square.
#[derive(Clone, Copy)]
struct Stood {
    on: Square,
    man: Option<Man>,
}

/// What taking a half-move back needs: what stood on the squares that it changed, and the values that it replaced.
#[derive(Clone, Copy)]
pub struct Undo {
    first: Stood,
    second: Stood,
    third: Stood,
    fourth: Stood,
    captured: Option<Man>,
    en_passant: Option<Square>,
    rights: Rights,
    quiet: u16,
    white: Holdings,
    black: Holdings,
}

impl Undo {
    /// The man that the half-move took.
    pub fn captured(&self) -> Option<Man>
        ensures { result ≡ captured_by self.now }
    {
        self.captured
    }
}

/// The squares that a half-move changes.
fn squares_changed(v: Variant, men: &Bits, c: Colour, m: &Move) -> Squares
    ensures { result ≡ changed_squares v men.now c m.now }
{
    match m {
        Move::Plain { from, to, promo: _ } => Squares {
            one: takes_on(men, *from, *to),
            two: *from,
            three: *to,
            four: *to,
        },
        Move::Castle { long } => Squares {
            one: home_of_king(v, c),
            two: home_of_rook(v, c, *long),
            three: end_of_king(c, *long),
            four: end_of_rook(c, *long),
        },
        Move::Drop { kind: _, to } => Squares {
            one: *to,
            two: *to,
            three: *to,
            four: *to,
        },
    }
}

fn stood_on(men: &Bits, s: Square) -> Stood
    ensures square { result.on ≡ s }
    ensures man { result.man ≡ man_at men.now s }
{
    Stood {
        on: s,
        man: men.man(s),
    }
}

impl Position {
    /// What taking the half-move back will need.
    #[inline]
    fn undo_of(&self, m: &Move) -> Undo
        requires { Allowed self.now m.now }
        ensures undo { IsUndoOf result self.now (next self.now m.now) }
        ensures captured { captured_by result ≡ taken self.now.men m.now }
    {
        let squares = squares_changed(self.variant, &self.men, self.to_move, m);
        Undo {
            first: stood_on(&self.men, squares.one),
            second: stood_on(&self.men, squares.two),
            third: stood_on(&self.men, squares.three),
            fourth: stood_on(&self.men, squares.four),
            captured: taken_by(&self.men, m),
            en_passant: self.en_passant,
            rights: self.rights,
            quiet: self.quiet,
            white: self.white,
            black: self.black,
        }
    }

    /// The position becomes that after an allowed half-move.
    #[inline]
    pub(crate) fn advance(&mut self, m: &Move)
        requires { Allowed self.old m.now }
        ensures { self.new ≡ next self.old m.now }
    {
        let white = hand_next(
            self.variant,
            self.white,
            Colour::White,
            &self.men,
            self.to_move,
            m,
        );
        let black = hand_next(
            self.variant,
            self.black,
            Colour::Black,
            &self.men,
            self.to_move,
            m,
        );
        self.en_passant = passed_square(&self.men, m);
        self.rights = rights_left(self.variant, self.rights, self.to_move, m);
        self.quiet = quiet_after(&self.men, self.quiet, m);
        change_men(&mut self.men, self.variant, self.to_move, m);
        self.to_move = self.to_move.opposite();
        self.white = white;
        self.black = black;
    }

    /// An allowed half-move is made. What comes back takes it back.
    pub fn make(&mut self, m: Move) -> Undo
        requires { Allowed self.old m }
        ensures variant { self.new.variant ≡ self.old.variant }
        ensures stands { (T : List HalfMove) (b : ℕ) → Stands self.old T b
            → Stands self.new (T ++ record { board = b; what = m } ∷ []) b }
        ensures after { self.new ≡ next self.old m }
        ensures undo { IsUndoOf result self.old self.new }
        ensures captured { captured_by result ≡ taken self.old.men m }
    {
        let undo = self.undo_of(&m);
        self.advance(&m);
        undo
    }

    /// The last half-move is taken back, with what `make` gave for it, where no man has come from another board since:
    /// the position is as it was before.
    pub fn unmake(&mut self, u: Undo)
        requires { IsUndoneBy self.old u }
        ensures { (p : Position) → IsUndoOf u p self.old → self.new ≡ p }
    {
        self.men.place(u.first.on, u.first.man);
        self.men.place(u.second.on, u.second.man);
        self.men.place(u.third.on, u.third.man);
        self.men.place(u.fourth.on, u.fourth.man);
        self.to_move = self.to_move.opposite();
        self.en_passant = u.en_passant;
        self.rights = u.rights;
        self.quiet = u.quiet;
        self.white = u.white;
        self.black = u.black;
    }
}
