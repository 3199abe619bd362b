//! The exam of a stored game, and its half-moves.
ghost use Rattle.std.specs.Prelude.{◌≡◌, ◌++◌, ◌↔◌, ◌<◌, IfOk, IfSome, IsSome, Some, length, slice_get, take};
ghost use Rattle.game_records.specs.Replays.{Replays};
ghost use Rattle.examine_board.specs.Exam.{exam_opened};
ghost use Rattle.examine_board.specs.Laid.{MayLie};

use chess_model::{MOST_HALVES, Terms};
use clock_ledger::Moment;
use collections::{Listed, Roomy};
use desk_boards::{Boards, replays};
use fics_words::Handle;
use game_records::{Half, PackedHalf, StoredGame};
use memory::NoMemory;
use std::alloc::Global;
use std::marker::Model;

/// A stored game that is looked at, with the room for all that may be played on from it.
#[derive(Drop)]
pub struct Exam {
    pub(crate) terms: Terms,
    pub(crate) names: Listed<Handle>,
    pub(crate) stored: Listed<Half>,
    /// How many half-moves of the stored game are looked at, the first ones; those of `branch` follow them.
    pub(crate) shared: usize,
    /// The half-moves that were played here, which are all on one board.
    pub(crate) branch: Roomy<Half, MOST_HALVES>,
    /// How many half-moves are on the boards.
    pub(crate) point: usize,
    pub(crate) boards: Boards,
}

impl Model for Exam {
    ghost use Rattle.std.specs.Prelude.{◌++◌, take};
    ghost use Rattle.examine_board.specs.Exam.{ExamState};
    ghost use Rattle.examine_board.specs.Holds.{HoldsExam};

    ghost Value = { ExamState };

    ghost view = { λ exam. record {
      terms = exam.terms;
      names = exam.names;
      stored = exam.stored;
      list = take exam.shared exam.stored ++ exam.branch;
      point = exam.point;
    } };

    ghost invariant = { HoldsExam };
}

impl Exam {
    /// Opens a stored game before its first half-move. None exactly where it doesn't replay.
    pub fn open(alloc: Global, game: &StoredGame) -> Result<Option<Exam>, NoMemory>
        ensures replays { IfOk result (λ exam. IsSome exam ↔ Replays game.now) }
        ensures opened { IfOk result (λ found. IfSome found (λ exam. exam ≡ exam_opened game.now)) }
    {
        if !replays(alloc, game)? {
            return Ok(None);
        }
        Ok(Some(Exam::new(alloc, game)?))
    }

    /// The exam of a game that replays, before its first half-move.
    fn new(alloc: Global, game: &StoredGame) -> Result<Exam, NoMemory>
        requires { Replays game.now }
        ensures { IfOk result (λ exam. exam ≡ exam_opened game.now) }
    {
        let names = copied(alloc, game.names.as_slice())?;
        let stored = unpacked(alloc, game.halves.as_slice())?;
        let branch = Roomy::new(alloc)?;
        let boards = Boards::start(alloc, game.terms, Moment::new(0))?;
        let shared = stored.len();
        Ok(Exam {
            terms: game.terms,
            names,
            stored,
            shared,
            branch,
            point: 0,
            boards,
        })
    }

    /// How many half-moves are looked at.
    pub(crate) fn len(&self) -> usize
        ensures { result ≡ length self.now.list }
    {
        self.shared + self.branch.len()
    }

    /// The half-move in that place, counted from 0. There are at most 3,600: 2,400 of the stored game and 1,200 that
    /// were played here.
    pub(crate) fn half(&self, point: usize) -> Half
        requires { point < length self.now.list }
        ensures half { slice_get self.now.list point ≡ Some result }
        ensures lies { MayLie self.now.terms (take point self.now.list) result }
        ensures few { point < 3600 }
    {
        if point < self.shared {
            self.stored.as_slice()[point]
        } else {
            self.branch.as_slice()[point - self.shared]
        }
    }
}

/// A list of copies of these items.
fn copied<T: Copy + Drop>(alloc: Global, items: &[T]) -> Result<Listed<T>, NoMemory>
    ensures { IfOk result (λ copies. copies ≡ items.now) }
{
    let mut copies = Listed::new(alloc);
    for item in items {
        copies.push(*item)?;
    }
    Ok(copies)
}

/// A list of these half-moves.
fn unpacked(alloc: Global, halves: &[PackedHalf]) -> Result<Listed<Half>, NoMemory>
    ensures { IfOk result (λ list. list ≡ halves.now) }
{
    let mut list = Listed::new(alloc);
    for half in halves {
        list.push(half.unpacked())?;
    }
    Ok(list)
}
