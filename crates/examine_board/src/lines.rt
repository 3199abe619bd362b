//! The lines that show where the exam is.
ghost use Rattle.std.specs.Prelude.{◌≡◌, ◌*◌, ◌<◌, ◌≤◌, ◌++◌, IfOk, OnOk};
ghost use Rattle.game_records.specs.Bounds as bounds;
ghost use Rattle.fics_words.specs.Boards.{board_number};
ghost use Rattle.examine_board.specs.Exam.{board_on};
ghost use Rattle.examine_board.specs.Lines.{exam_lines, hands_line, hands_lines, name_at, shown_board, view_of};

use crate::exam::Exam;
use chess_model::{Colour, has_drops};
use fics_words::{BoardNumber, Handle, Line};
use game_board::GameBoard;
use memory::NoMemory;
use std::alloc::Global;
use style12_writer::{BoardView, LineList, Viewer, line_b1, line12};

/// Who examines a game, with White at the bottom.
const EXAMINER: Viewer = Viewer {
    relation: 2,
    flip: false,
};

impl Exam {
    /// The board line of the board on which the last half-move was made, or of the first board before any, and in house
    /// variants the holdings line of each board. It fails only when out of memory.
    pub fn lines(&self, alloc: Global) -> Result<LineList, NoMemory>
        ensures { IfOk result (λ lines. lines ≡ exam_lines self.now) }
    {
        let mut lines = LineList::new(alloc);
        let view = self.view(self.shown_board());
        lines.push(line12(&view, EXAMINER).finish(alloc)?)?;
        self.put_hands(alloc, &mut lines)?;
        Ok(lines)
    }

    /// The board that is shown.
    fn shown_board(&self) -> BoardNumber
        ensures value { result ≡ shown_board self.now }
        ensures last { board_number result ≤ bounds.boards self.now.terms.variant }
    {
        if self.point == 0 {
            return BoardNumber::First;
        }
        let last = self.half(self.point - 1);
        BoardNumber::of(last.board).unwrap_or(BoardNumber::First)
    }

    /// What the line of a board shows.
    #[tactic(auto, unfolding(crate::specs::Lines::view_of))]
    fn view(&self, shown: BoardNumber) -> BoardView
        requires { board_number shown ≤ bounds.boards self.now.terms.variant }
        ensures { result ≡ view_of self.now shown }
    {
        let board = self.board(shown);
        let number = shown.number();
        BoardView {
            face: board.face(),
            game: u16::from(number),
            white: self.name(2 * number - 2),
            black: self.name(2 * number - 1),
            minutes: self.terms.minutes,
            increment: self.terms.increment,
            remaining: [
                board.ledger(Colour::White).remaining(),
                board.ledger(Colour::Black).remaining(),
            ],
            taken: board.last_taken(),
        }
    }

    /// The board of that number.
    fn board(&self, number: BoardNumber) -> &GameBoard
        requires { board_number number ≤ bounds.boards self.now.terms.variant }
        ensures { result.now ≡ board_on self.now number }
    {
        let Some(board) = self.boards.at(number) else {
            unreachable!()
        };
        board
    }

    /// The name of the player in that place, counted from 0.
    fn name(&self, seat: u8) -> Handle
        requires { seat < 2 * bounds.boards self.now.terms.variant }
        ensures { result ≡ name_at self.now.names seat }
    {
        self.names.as_slice()[usize::from(seat)]
    }

    /// Adds the holdings line of each board, where the variant has men in hand.
    fn put_hands(&self, alloc: Global, lines: &mut LineList) -> Result<(), NoMemory>
        ensures { OnOk result (lines.new ≡ lines.old ++ hands_lines self.now) }
    {
        if !has_drops(self.terms.variant) {
            return Ok(());
        }
        let (first, second) = self.boards.both();
        lines.push(hands_line(alloc, first)?)?;
        if let Some(second) = second {
            lines.push(hands_line(alloc, second)?)?;
        }
        Ok(())
    }
}

/// The holdings line of a board.
fn hands_line(alloc: Global, board: &GameBoard) -> Result<Line, NoMemory>
    ensures { IfOk result (λ line. line ≡ hands_line board.now) }
{
    let position = board.position();
    let white = position.hand(Colour::White);
    let black = position.hand(Colour::Black);
    let game = u16::from(board.number().number());
    line_b1(game, &white, &black, None).finish(alloc)
}
