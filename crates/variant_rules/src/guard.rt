//! One look from the kings of the player to move, which decides for most half-moves whether they leave them safe.
ghost use Rattle.std.specs.Prelude.{◌≡◌, ◌||◌, length};
ghost use Rattle.chess_model.specs.Placement.{opposite};
ghost use Rattle.chess_model.specs.Attacked.{IsAttacked};
ghost use Rattle.bitboard_core.specs.Strikers.{IsStrikerSet};
ghost use Rattle.variant_rules.specs.Checks.{AreSeenFrom, ArePinned, AreStops, AreAnswers, IsWatch, AreWatched, IsJoined};
ghost use Rattle.variant_rules.specs.Listing.{IsGuard};

use crate::listing::with_square;
use crate::position::Position;
use bitboard_core::{Bits, next_square, queen_squares, square_of, strikers};
use chess_model::{Colour, Square};

/// What the kings of the player to move tell of the half-moves: which of them have to be tried before it is known that
/// they leave the own king safe, and which can't.
#[derive(Clone, Copy)]
pub(crate) struct Guard {
    pub(crate) in_check: bool,
    /// The kings, and the men without whom a king would be attacked; in check all squares.
    pub(crate) from: u64,
    /// Outside these a man other than a king answers no check; without a check all squares.
    pub(crate) answers: u64,
}

/// The squares that queens on the squares of a set would strike.
fn seen_from(men: &Bits, c: Colour, squares: u64) -> u64
    ensures { AreSeenFrom men.now c squares result }
{
    let occupied = men.occupied();
    let mut set = 0;
    let mut s = next_square(squares, 0);
    while s < 64 {
        set = set | queen_squares(square_of(s), occupied);
        s = next_square(squares, s + 1);
    }
    set
}

/// The men of a colour without whom an enemy would strike s: the first on its lines, where an enemy sees s through
/// them and strikes them.
fn pinned(men: &Bits, c: Colour, s: Square) -> u64
    requires squares { length men.now ≡ 64 }
    requires safe { ¬ IsAttacked men.now (opposite c) s }
    ensures { ArePinned men.now c s result }
{
    let enemy = c.opposite();
    let occupied = men.occupied();
    let shields = queen_squares(s, occupied) & men.held_by(c);
    let snipers = strikers(&men.side(enemy), enemy, occupied & !shields, s);
    shields & seen_from(men, c, snipers)
}

/// The squares outside which no man stops the one on x from striking s: x itself, and those to which a queen's line is
/// open from both.
fn stops(men: &Bits, c: Colour, s: Square, x: Square) -> u64
    requires { length men.now ≡ 64 }
    ensures { AreStops men.now c s x result }
{
    let occupied = men.occupied();
    with_square(queen_squares(s, occupied) & queen_squares(x, occupied), x)
}

/// The squares outside which no man stops all of those that strike s.
fn answers(men: &Bits, c: Colour, s: Square, checkers: u64) -> u64
    requires squares { length men.now ≡ 64 }
    requires checkers { IsStrikerSet men.now (opposite c) s checkers }
    ensures { AreAnswers men.now c s result }
{
    let mut set = u64::MAX;
    let mut x = next_square(checkers, 0);
    while x < 64 {
        set = set & stops(men, c, s, square_of(x));
        x = next_square(checkers, x + 1);
    }
    set
}

/// What a king on s tells.
fn watch(men: &Bits, c: Colour, s: Square) -> Guard
    requires { length men.now ≡ 64 }
    ensures { IsWatch men.now c s result }
{
    let enemy = c.opposite();
    let checkers = strikers(&men.side(enemy), enemy, men.occupied(), s);
    if checkers != 0 {
        return Guard {
            in_check: true,
            from: u64::MAX,
            answers: answers(men, c, s, checkers),
        };
    }
    Guard {
        in_check: false,
        from: pinned(men, c, s),
        answers: u64::MAX,
    }
}

fn either(one: bool, two: bool) -> bool
    ensures { result ≡ (one || two) }
{
    one || two
}

/// What two kings tell.
fn joined(one: Guard, two: Guard) -> Guard
    ensures { IsJoined one two result }
{
    Guard {
        in_check: either(one.in_check, two.in_check),
        from: one.from | two.from,
        answers: one.answers & two.answers,
    }
}

/// What the kings of a colour tell.
fn watches(men: &Bits, c: Colour) -> Guard
    requires { length men.now ≡ 64 }
    ensures { AreWatched men.now c result }
{
    let kings = men.side(c).kings;
    let mut guard = Guard {
        in_check: false,
        from: kings,
        answers: u64::MAX,
    };
    let mut s = next_square(kings, 0);
    while s < 64 {
        guard = joined(guard, watch(men, c, square_of(s)));
        s = next_square(kings, s + 1);
    }
    guard
}

impl Position {
    /// What the kings of the player to move tell.
    pub(crate) fn guard(&self) -> Guard
        ensures { IsGuard self.now result }
    {
        watches(&self.men, self.to_move)
    }
}
