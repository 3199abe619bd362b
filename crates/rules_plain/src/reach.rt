//! Which squares a man reaches.
ghost use Rattle.std.specs.Prelude.{◌+◌, ◌<◌, ◌↔◌, IsTrue, Option, Some};
ghost use Rattle.chess_model.specs.Reach.{IsForward, IsStraight, IsDiagonal, IsKnightStep, IsStep, Clear, IsOpen, Strikes, IsAhead, Advances, PawnTakes, Goes, Reaches};

use crate::placement::{Men, man_on, second_rank_of};
use crate::square::{files_between, ranks_between, stepped, steps_between};
use chess_model::{Colour, Kind, Square};
use rules_answers::is_held_by;

/// Whether b is n ranks before a, seen by that colour.
fn is_forward(c: Colour, n: u8, a: Square, b: Square) -> bool
    requires { n < 8 }
    ensures { IsTrue result ↔ IsForward c n a b }
{
    match c {
        Colour::White => b.rank() == a.rank() + n,
        Colour::Black => a.rank() == b.rank() + n,
    }
}

fn is_straight(a: Square, b: Square) -> bool
    ensures { IsTrue result ↔ IsStraight a b }
{
    a != b && (files_between(a, b) == 0 || ranks_between(a, b) == 0)
}

fn is_diagonal(a: Square, b: Square) -> bool
    ensures { IsTrue result ↔ IsDiagonal a b }
{
    a != b && files_between(a, b) == ranks_between(a, b)
}

fn is_knight_step(a: Square, b: Square) -> bool
    ensures { IsTrue result ↔ IsKnightStep a b }
{
    let files = files_between(a, b);
    let ranks = ranks_between(a, b);
    files == 1 && ranks == 2 || files == 2 && ranks == 1
}

/// Whether b lies where a man of that colour and kind on a strikes on an empty board.
#[tactic(auto, unfolding(chess_model::specs::Reach::IsStep))]
fn is_step(c: Colour, k: Kind, a: Square, b: Square) -> bool
    ensures { IsTrue result ↔ IsStep c k a b }
{
    match k {
        Kind::Pawn => files_between(a, b) == 1 && is_forward(c, 1, a, b),
        Kind::Knight => is_knight_step(a, b),
        Kind::Bishop => is_diagonal(a, b),
        Kind::Rook => is_straight(a, b),
        Kind::Queen => is_straight(a, b) || is_diagonal(a, b),
        Kind::King => steps_between(a, b) == 1,
    }
}

/// Whether the squares between a and b are empty.
fn is_clear(men: &Men, a: Square, b: Square) -> bool
    ensures { IsTrue result ↔ Clear men.now a b }
{
    let steps = steps_between(a, b);
    for k in 1..steps {
        if man_on(men, stepped(a, b, k)).is_some() {
            return false;
        }
    }
    true
}

fn is_open(k: Kind, men: &Men, a: Square, b: Square) -> bool
    ensures { IsTrue result ↔ IsOpen k men.now a b }
{
    match k {
        Kind::Knight => true,
        Kind::Pawn => is_clear(men, a, b),
        Kind::Bishop => is_clear(men, a, b),
        Kind::Rook => is_clear(men, a, b),
        Kind::Queen => is_clear(men, a, b),
        Kind::King => is_clear(men, a, b),
    }
}

/// Whether a man of that colour and kind on a strikes b.
pub(crate) fn strikes(men: &Men, c: Colour, k: Kind, a: Square, b: Square) -> bool
    ensures { IsTrue result ↔ Strikes men.now c k a b }
{
    is_step(c, k, a, b) && is_open(k, men, a, b)
}

/// Whether b is the next square ahead of a, or the one after it and a is on the second rank.
fn is_ahead(c: Colour, a: Square, b: Square) -> bool
    ensures { IsTrue result ↔ IsAhead c a b }
{
    if is_forward(c, 1, a, b) {
        return true;
    }
    is_forward(c, 2, a, b) && a.rank() == second_rank_of(c)
}

fn advances(men: &Men, c: Colour, a: Square, b: Square) -> bool
    ensures { IsTrue result ↔ Advances men.now c a b }
{
    if files_between(a, b) != 0 || !is_ahead(c, a, b) {
        return false;
    }
    is_clear(men, a, b) && man_on(men, b).is_none()
}

fn pawn_takes(men: &Men, en_passant: Option<Square>, c: Colour, a: Square, b: Square) -> bool
    ensures { IsTrue result ↔ PawnTakes men.now en_passant c a b }
{
    if !is_step(c, Kind::Pawn, a, b) {
        return false;
    }
    is_held_by(c.opposite(), man_on(men, b)) || en_passant == Some(b)
}

fn goes(men: &Men, c: Colour, k: Kind, a: Square, b: Square) -> bool
    ensures { IsTrue result ↔ Goes men.now c k a b }
{
    strikes(men, c, k, a, b) && !is_held_by(c, man_on(men, b))
}

/// Whether a man of that colour and kind on a reaches b; `en_passant` is the en passant square.
pub(crate) fn reaches(
    men: &Men,
    en_passant: Option<Square>,
    c: Colour,
    k: Kind,
    a: Square,
    b: Square,
) -> bool
    ensures { IsTrue result ↔ Reaches men.now en_passant c k a b }
{
    match k {
        Kind::Pawn => advances(men, c, a, b) || pawn_takes(men, en_passant, c, a, b),
        Kind::Knight => goes(men, c, k, a, b),
        Kind::Bishop => goes(men, c, k, a, b),
        Kind::Rook => goes(men, c, k, a, b),
        Kind::Queen => goes(men, c, k, a, b),
        Kind::King => goes(men, c, k, a, b),
    }
}
