//! The half-moves of a game as its record has them.
ghost use Rattle.std.specs.Prelude.{◌≡◌, [], IfOk, drop};
ghost use Rattle.fics_words.specs.Boards.{board_number};
ghost use Rattle.game_board.specs.Board.{made};
ghost use Rattle.desk_boards.specs.Halves.{first_charge, half_of, halves_from, halves_of};

use crate::boards::Boards;
use clock_ledger::Charge;
use fics_words::BoardNumber;
use game_board::{Made, Played};
use game_records::{Half, HalfList};
use memory::NoMemory;
use std::alloc::Global;

impl Boards {
    /// The half-moves of all boards in the order in which they were made, each with its charge.
    pub fn halves(&self, alloc: Global) -> Result<HalfList, NoMemory>
        ensures { IfOk result (λ halves. halves ≡ halves_of self.now) }
    {
        let (first, second) = self.both();
        match second {
            Some(second) => halves_from(alloc, first.list(), second.list(), first.all()),
            None => halves_from(alloc, first.list(), &[], first.all()),
        }
    }
}

/// Half-moves with their charges, where these are the lists of the boards 1 and 2.
fn halves_from(
    alloc: Global,
    one: &[Played],
    two: &[Played],
    all: &[Made],
) -> Result<HalfList, NoMemory>
    ensures { IfOk result (λ halves. halves ≡ halves_from one.now two.now (made all.now)) }
{
    let mut halves = HalfList::with_room(alloc, all.len())?;
    let mut one = one;
    let mut two = two;
    for half in all {
        match half.board {
            BoardNumber::First => {
                halves.push(half_of(half, one))?;
                one = behind_first(one);
            }
            BoardNumber::Second => {
                halves.push(half_of(half, two))?;
                two = behind_first(two);
            }
        }
    }
    Ok(halves)
}

/// A half-move with the charge of the first one of a list.
fn half_of(half: &Made, list: &[Played]) -> Half
    ensures { result ≡ half_of (record { board = board_number half.now.board; what = half.now.what }) list.now }
{
    Half {
        board: half.board.number(),
        what: half.what,
        charge: first_charge(list),
    }
}

/// The charge of the first half-move of a list, if it has one.
fn first_charge(list: &[Played]) -> Option<Charge>
    ensures { result ≡ first_charge list.now }
{
    let first = list.first()?;
    first.charge
}

/// A list without its first half-move.
fn behind_first(list: &[Played]) -> &[Played]
    ensures { result.now ≡ drop 1 list.now }
{
    &list[list.len().min(1)..]
}
