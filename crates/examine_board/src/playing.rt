//! Half-moves that are played on from where the exam is.
ghost use Rattle.std.specs.Prelude.{◌≡◌, ◌∷◌, ◌++◌, [], ◌<◌, IfOk, OnOk, length};
ghost use Rattle.chess_model.specs.Limits.{most_halves};
ghost use Rattle.examine_board.specs.Answers.{answer, exam_left_by};
ghost use Rattle.examine_board.specs.Exam.{present};
ghost use Rattle.examine_board.specs.Laid.{MayLie};
ghost use Rattle.examine_board.specs.Play.{is_pair, play_answer, played, uncharged, with_move};

use crate::exam::Exam;
use chess_model::{Move, MoveWord, Variant};
use fics_words::Refusal;
use game_records::Half;

impl Exam {
    /// Plays the half-move that a word stands for where the exam is, without a charge; the half-moves that followed are
    /// looked at no more. Refuses with `NotInVariant` at a pair, `GameOver` where the game has ended by mate or
    /// stalemate, `TooManyMoves` at 1,200 half-moves, then as the rules answer the word; a refusal changes nothing.
    pub fn play(&mut self, word: &MoveWord) -> Result<(), Refusal>
        ensures answer { result ≡ answer (played self.old word.now) }
        ensures after { self.new ≡ exam_left_by self.old (played self.old word.now) }
    {
        let what = self.resolve(word)?;
        self.add(what);
        Ok(())
    }

    /// The half-move that a word stands for, or the refusal.
    fn resolve(&self, word: &MoveWord) -> Result<Move, Refusal>
        ensures answer { result ≡ play_answer self.now word.now }
        ensures lies { IfOk result (λ what. MayLie self.now.terms (present self.now) (uncharged what)) }
        ensures room { OnOk result (self.now.point < most_halves) }
    {
        if is_pair(self.terms.variant) {
            return Err(Refusal::NotInVariant);
        }
        let (board, _none) = self.boards.both();
        if board.state().is_end() {
            return Err(Refusal::GameOver);
        }
        board.resolve(board.to_move(), word)
    }

    /// Plays a half-move that may be laid behind those on the boards.
    fn add(&mut self, what: Move)
        requires lies { MayLie self.old.terms (present self.old) (uncharged what) }
        requires room { self.old.point < most_halves }
        ensures { self.new ≡ with_move self.old what }
    {
        self.cut();
        self.push(what);
        self.step();
    }

    /// Looks no more at the half-moves that follow those on the boards.
    fn cut(&mut self)
        ensures after { self.new ≡ record self.old { list = present self.old } }
        ensures end { self.new.point ≡ length self.new.list }
    {
        if self.point <= self.shared {
            self.shared = self.point;
            self.branch.truncate(0);
            return;
        }
        self.branch.truncate(self.point - self.shared);
    }

    /// Looks at one half-move more, behind the others.
    fn push(&mut self, what: Move)
        requires lies { MayLie self.old.terms self.old.list (uncharged what) }
        requires room { length self.old.list < most_halves }
        ensures { self.new ≡ record self.old { list = self.old.list ++ uncharged what ∷ [] } }
    {
        self.branch.push(Half {
            board: 1,
            what,
            charge: None,
        });
    }
}

/// Whether the game is played at a pair of boards.
fn is_pair(variant: Variant) -> bool
    ensures { result ≡ is_pair variant }
{
    match variant {
        Variant::Chess => false,
        Variant::Crazyhouse => false,
        Variant::Bughouse => true,
        Variant::Fischer(_) => false,
    }
}
