//! What the printed text of a half-move needs.
ghost use Rattle.std.specs.Prelude.{◌≡◌, Option, is_some};
ghost use Rattle.chess_model.specs.MoveList.{taken};
ghost use Rattle.chess_model.specs.Allowed.{Allowed};
ghost use Rattle.chess_model.specs.Next.{next};
ghost use Rattle.variant_rules.specs.States.{state_in};
ghost use Rattle.variant_rules.specs.Showing.{kind_on, shown_kind, is_clear_word, bare, marks_by, piece_marks, plain_marks, marks_of, shown_of};

use crate::changes::taken_by;
use crate::position::Position;
use chess_model::{Kind, Man, Move, MoveWord, Shown, Square, State};

/// Whether the text of a half-move names the file and the rank of its origin.
#[derive(Clone, Copy)]
pub(crate) struct Marks {
    by_file: bool,
    by_rank: bool,
}

fn kind_of_man(man: Option<Man>) -> Kind
    ensures { result ≡ kind_on man }
{
    match man {
        Some(m) => m.kind,
        None => Kind::Pawn,
    }
}

/// The first of nothing, file, rank, file and rank that leaves one allowed move.
fn first_marks(one: bool, by_file: bool, by_rank: bool) -> Marks
    ensures { result ≡ marks_by one by_file by_rank }
{
    if one {
        return no_marks();
    }
    if by_file {
        return Marks {
            by_file: true,
            by_rank: false,
        };
    }
    if by_rank {
        return Marks {
            by_file: false,
            by_rank: true,
        };
    }
    Marks {
        by_file: true,
        by_rank: true,
    }
}

impl Position {
    fn kind_shown(&self, m: &Move) -> Kind
        ensures { result ≡ shown_kind self.now.men m.now }
    {
        match m {
            Move::Plain {
                from,
                to: _,
                promo: _,
            } => kind_of_man(self.men.man(*from)),
            Move::Castle { long: _ } => Kind::King,
            Move::Drop { kind, to: _ } => *kind,
        }
    }

    /// Whether the word for men of that kind, on this file and rank, has one allowed move.
    fn is_clear_word(&self, kind: Kind, file: Option<u8>, rank: Option<u8>, to: Square) -> bool
        ensures { result ≡ is_clear_word self.now kind file rank to }
    {
        let word = MoveWord::Named {
            kind,
            file,
            rank,
            to,
            promo: None,
        };
        self.resolve(&word).is_ok()
    }

    fn piece_marks(&self, k: Kind, from: Square, to: Square) -> Marks
        ensures { result ≡ piece_marks self.now k from to }
    {
        let one = self.is_clear_word(k, None, None, to);
        let by_file = self.is_clear_word(k, Some(from.file()), None, to);
        let by_rank = self.is_clear_word(k, None, Some(from.rank()), to);
        first_marks(one, by_file, by_rank)
    }

    fn plain_marks(&self, k: Kind, from: Square, to: Square) -> Marks
        ensures { result ≡ plain_marks self.now k from to }
    {
        match k {
            Kind::Pawn => no_marks(),
            Kind::Knight => self.piece_marks(Kind::Knight, from, to),
            Kind::Bishop => self.piece_marks(Kind::Bishop, from, to),
            Kind::Rook => self.piece_marks(Kind::Rook, from, to),
            Kind::Queen => self.piece_marks(Kind::Queen, from, to),
            Kind::King => self.piece_marks(Kind::King, from, to),
        }
    }

    fn marks(&self, m: &Move) -> Marks
        ensures { result ≡ marks_of self.now m.now }
    {
        match m {
            Move::Plain { from, to, promo: _ } => {
                self.plain_marks(kind_of_man(self.men.man(*from)), *from, *to)
            }
            Move::Castle { long: _ } => no_marks(),
            Move::Drop { kind: _, to: _ } => no_marks(),
        }
    }

    fn takes(&self, m: &Move) -> bool
        ensures { result ≡ is_some (taken self.now.men m.now) }
    {
        taken_by(&self.men, m).is_some()
    }

    /// The state after an allowed half-move.
    fn state_after(&self, m: &Move) -> State
        requires { Allowed self.now m.now }
        ensures { result ≡ state_in (next self.now m.now) }
    {
        let mut after = self.duplicate();
        after.advance(m);
        after.state()
    }

    /// What the printed text of an allowed half-move needs: the kind of the man that moves or is dropped, whether it
    /// takes, whether the text of a piece names the file and the rank of its origin (the first of nothing, file, rank,
    /// file and rank that leaves one allowed move), and the state after it.
    pub fn shown(&self, m: Move) -> Shown
        requires { Allowed self.now m }
        ensures { result ≡ shown_of self.now m }
    {
        let marks = self.marks(&m);
        let kind = self.kind_shown(&m);
        let takes = self.takes(&m);
        let after = self.state_after(&m);
        Shown {
            what: m,
            kind,
            takes,
            by_file: marks.by_file,
            by_rank: marks.by_rank,
            after,
        }
    }
}

fn no_marks() -> Marks
    ensures { result ≡ bare }
{
    Marks {
        by_file: false,
        by_rank: false,
    }
}
