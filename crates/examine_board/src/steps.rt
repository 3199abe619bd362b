//! To and fro along the half-moves, and back to the stored game.
ghost use Rattle.std.specs.Prelude.{◌≡◌, ◌+◌, ◌<◌, ◌≤◌, Ok, OnOk, length, take};
ghost use Rattle.examine_board.specs.Answers.{answer, exam_left_by};
ghost use Rattle.examine_board.specs.Exam.{present};
ghost use Rattle.examine_board.specs.Same.{shared_length};
ghost use Rattle.examine_board.specs.Steps.{backed, forwarded, reverted};

use crate::exam::Exam;
use crate::same::is_same_half;
use fics_words::{BoardNumber, Refusal};
use game_board::Played;

impl Exam {
    /// Goes `n` half-moves on. Refuses with `NoMoreMoves` where fewer follow; a refusal changes nothing.
    pub fn forward(&mut self, n: u16) -> Result<(), Refusal>
        ensures answer { result ≡ answer (forwarded self.old n) }
        ensures after { self.new ≡ exam_left_by self.old (forwarded self.old n) }
        ensures undone { OnOk result (backed self.new n ≡ Ok self.old) }
        ensures list { self.new.list ≡ self.old.list }
    {
        let n = usize::from(n);
        let left = self.len() - self.point;
        if left < n {
            return Err(Refusal::NoMoreMoves);
        }
        self.go_on(self.point + n);
        Ok(())
    }

    /// Goes `n` half-moves back. Refuses with `NoEarlierMoves` where fewer are on the boards; a refusal changes
    /// nothing.
    pub fn back(&mut self, n: u16) -> Result<(), Refusal>
        ensures answer { result ≡ answer (backed self.old n) }
        ensures after { self.new ≡ exam_left_by self.old (backed self.old n) }
        ensures undone { OnOk result (forwarded self.new n ≡ Ok self.old) }
        ensures list { self.new.list ≡ self.old.list }
    {
        let n = usize::from(n);
        if self.point < n {
            return Err(Refusal::NoEarlierMoves);
        }
        self.go_back(self.point - n);
        Ok(())
    }

    /// Looks at the stored half-moves again, in the place up to which those on the boards are the same.
    pub fn revert(&mut self)
        ensures { self.new ≡ reverted self.old }
    {
        let kept = self.kept();
        self.go_back(kept);
        self.drop_branch();
    }

    /// Goes on to that place.
    fn go_on(&mut self, point: usize)
        requires low { self.old.point ≤ point }
        requires high { point ≤ length self.old.list }
        ensures { self.new ≡ record self.old { point = point } }
    {
        for _next in self.point..point {
            self.step();
        }
    }

    /// Goes back to that place.
    fn go_back(&mut self, point: usize)
        requires { point ≤ self.old.point }
        ensures { self.new ≡ record self.old { point = point } }
    {
        if point == self.point {
            return;
        }
        self.rewind();
        self.go_on(point);
    }

    /// Goes back to the start.
    fn rewind(&mut self)
        ensures { self.new ≡ record self.old { point = 0 } }
    {
        self.boards.rewind();
        self.point = 0;
    }

    /// Goes one half-move on.
    pub(crate) fn step(&mut self)
        requires { self.old.point < length self.old.list }
        ensures { self.new ≡ record self.old { point = self.old.point + 1 } }
    {
        let half = self.half(self.point);
        let played = Played {
            what: half.what,
            charge: half.charge,
        };
        let Some(board) = BoardNumber::of(half.board) else {
            unreachable!()
        };
        self.boards.lay(board, &played);
        self.point += 1;
    }

    /// How many half-moves on the boards, from the first one on, are those of the stored game.
    fn kept(&self) -> usize
        ensures { result ≡ shared_length (present self.now) self.now.stored }
    {
        let most = self.point.min(self.stored.len());
        for point in 0..most {
            let half = self.half(point);
            if !is_same_half(&half, &self.stored.as_slice()[point]) {
                return point;
            }
        }
        most
    }

    /// Looks at the stored half-moves, where those on the boards are the first of them.
    fn drop_branch(&mut self)
        requires within { self.old.point ≤ length self.old.stored }
        requires same { present self.old ≡ take self.old.point self.old.stored }
        ensures { self.new ≡ record self.old { list = self.old.stored } }
    {
        self.shared = self.stored.len();
        self.branch.truncate(0);
    }
}
