//! The game that `board` plays: one untimed game of chess between `White` and `Black`, seen by an observer.

ghost use Rattle.std.specs.Prelude.{◌≡◌, ◌++◌, OnOk, codes};
ghost use Rattle.cmd_board.specs.Game.{untimed, view_of, observer, shown_text, board_state};
ghost use Rattle.style12_writer.specs.Line12.{line12_text};

use crate::endings::{put_end, put_ended, put_refusal};
use chess_model::{MoveWord, State, Terms, Variant};
use clock_ledger::Moment;
use fics_words::{BoardNumber, Handle, Refusal};
use game_board::GameBoard;
use memory::NoMemory;
use move_reader::read_word;
use std::alloc::Global;
use std::marker::Model;
use style12_writer::{BoardView, Viewer, line12};

/// The end of each line of `board`.
pub const END_OF_LINE: &[u8] = b"\n\r";

/// A game from its start on; nobody's time runs.
#[derive(Drop)]
pub struct UntimedGame {
    board: GameBoard,
    /// Whether it has ended by mate or stalemate.
    over: bool,
}

impl Model for UntimedGame {
    ghost use Rattle.cmd_board.specs.Game.{BoardGame};
    ghost use Rattle.cmd_board.specs.GameFields.{HoldsGame};

    ghost Value = { BoardGame };

    ghost view = { λ game. game.board };

    ghost invariant = { HoldsGame };
}

impl UntimedGame {
    ghost use Rattle.std.specs.Prelude.{◌≡◌, ◌++◌, IfOk, OnOk, MatchOption, true, false};
    ghost use Rattle.cmd_board.specs.Game.{new_game, answer_to, move_made, answer_line};

    /// A game before its first half-move, with the room for all of them.
    pub fn new(alloc: Global) -> Result<UntimedGame, NoMemory>
        ensures { IfOk result (λ game. game ≡ new_game) }
    {
        let board = GameBoard::start(alloc, BoardNumber::First, untimed(), Moment::new(0))?;
        let over = board.state().is_end();
        Ok(UntimedGame { board, over })
    }

    /// Makes the answer of a line, and appends what is written for it; false where the line is outside the grammar.
    /// After running out of memory nothing is known of the game and of what was appended.
    pub fn answer_line(&mut self, line: &[u8], out: &mut Vec<u8>) -> Result<bool, NoMemory>
        ensures made { IfOk result (λ made. MatchOption (answer_line self.old line.now)
            ((made ≡ false) × (out.new.items ≡ out.old.items))
            (λ next. (made ≡ true) × (self.new ≡ next.0) × (out.new.items ≡ out.old.items ++ next.1))) }
    {
        let Some(word) = read_word(line) else {
            return Ok(false);
        };
        self.play(&word, out)?;
        Ok(true)
    }

    /// Plays the half-move of the word and appends what is shown then, or appends the refusal.
    fn play(&mut self, word: &MoveWord, out: &mut Vec<u8>) -> Result<(), NoMemory>
        ensures board { OnOk result (self.new ≡ (move_made self.old (answer_to self.old word.now)).0) }
        ensures text { OnOk result
            (out.new.items ≡ out.old.items ++ (move_made self.old (answer_to self.old word.now)).1) }
    {
        if self.over {
            return put_refusal(Refusal::GameOver, out);
        }
        let colour = self.board.to_move();
        match self.board.play(colour, word, Moment::new(0), None) {
            Ok(_captured) => {
                let state = self.board.state();
                self.over = state.is_end();
                write_board(&self.board, state, out)
            }
            Err(refusal) => put_refusal(refusal, out),
        }
    }
}

/// Chess without clocks.
fn untimed() -> Terms
    ensures { result ≡ untimed }
{
    Terms {
        minutes: 0,
        increment: 0,
        variant: Variant::Chess,
        colour: None,
    }
}

/// Appends what is shown of a board in that state: its line, and the line of the end where the game has ended.
fn write_board(board: &GameBoard, state: State, out: &mut Vec<u8>) -> Result<(), NoMemory>
    requires { state ≡ board_state board.now }
    ensures { OnOk result (out.new.items ≡ out.old.items ++ shown_text board.now) }
{
    let view = view(board);
    write_line(&view, out)?;
    put_end(&view, board.to_move(), state, out)
}

/// Appends the style 12 line of a board.
fn write_line(view: &BoardView, out: &mut Vec<u8>) -> Result<(), NoMemory>
    ensures { OnOk result (out.new.items ≡ out.old.items ++ (line12_text view.now observer ++ codes "\n\r")) }
{
    let observer = Viewer {
        relation: 0,
        flip: false,
    };
    put_ended(line12(view, observer).bytes(), out)
}

/// What the line of the board shows.
fn view(board: &GameBoard) -> BoardView
    ensures { result ≡ view_of board.now }
{
    BoardView {
        face: board.face(),
        game: 1,
        white: white(),
        black: black(),
        minutes: 0,
        increment: 0,
        remaining: [0, 0],
        taken: board.last_taken(),
    }
}

/// The name of the player of White.
fn white() -> Handle
    ensures { result ≡ codes "White" }
{
    let Some(name) = Handle::read(b"White") else {
        unreachable!()
    };
    name
}

/// The name of the player of Black.
fn black() -> Handle
    ensures { result ≡ codes "Black" }
{
    let Some(name) = Handle::read(b"Black") else {
        unreachable!()
    };
    name
}
