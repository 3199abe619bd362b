//! What has come of a game, a piece at a time.
ghost use Rattle.std.specs.Prelude.{◌≡◌, true, [], ◌∷◌, ◌++◌, if◌then◌else◌, IfOk, IfSome, OnErr, OnOk, Option, Some, None};
ghost use Rattle.chess_model.specs.Allowed.{Allowed};
ghost use Rattle.pgn_book.specs.declared.stage.GameStage.TheVariants.{Moves};
ghost use Rattle.pgn_book.specs.Games.{is_result, position_of_moves, without_praise};
ghost use Rattle.pgn_book.specs.Reading.{Book, game_with, glyphed, is_before, move_read, move_taken, tag_named, no_book, stage_opened, closed, piece_passed, quoted, result_of, signed, piece_told, worded};
ghost use Rattle.pgn_book.specs.Taking.{IsTaken, IsTakenSilently};

use crate::bytes::{are_digits, is_name, without_praise};
use crate::game::{PgnGame, PgnResult};
use crate::stage::GameStage;
use crate::tag_texts::{TagTexts, copied};
use crate::text::Text;
use chess_model::{MOST_HALVES, Move, Variant};
use collections::Listed;
use memory::NoMemory;
use move_reader::read_word;
use std::alloc::Global;
use std::marker::Model;
use std::mem;
use variant_rules::Position;

/// What was read with a piece or a byte: maybe a game, and whether a text goes on behind it.
#[derive(Drop)]
pub(crate) struct Read {
    pub(crate) game: Option<PgnGame>,
    pub(crate) goes_on: bool,
}

/// The tags and the moves so far, with the position after these.
#[derive(Drop)]
pub(crate) struct Book {
    stage: GameStage,
    row: TagTexts,
    moves: Listed<Move>,
    position: Position,
}

impl Model for Book {
    ghost use Rattle.std.specs.Prelude.{◌≡◌, map};
    ghost use Rattle.chess_model.specs.declared.variant.Variant.TheVariants.{Chess};
    ghost use Rattle.chess_model.specs.Position.{Stands};
    ghost use Rattle.pgn_book.specs.Games.{on_board};
    ghost use Rattle.pgn_book.specs.Reading.{Book};

    ghost Value = { Book };

    ghost view = { λ book. record { stage = book.stage; row = book.row; moves = book.moves } };

    ghost invariant = { λ book. (book.position.variant ≡ Chess) × Stands book.position (map on_board book.moves) 1 };
}

impl Book {
    /// Before a game.
    pub(crate) fn new(alloc: Global) -> Book
        ensures { result ≡ no_book }
    {
        Book {
            stage: GameStage::Before,
            row: TagTexts::new(),
            moves: Listed::new(alloc),
            position: Position::start(Variant::Chess),
        }
    }

    /// The same once more.
    pub(crate) fn duplicate(&self, alloc: Global) -> Result<Book, NoMemory>
        ensures { IfOk result (λ copy. copy ≡ self.now) }
    {
        let moves = copied(alloc, self.moves.as_slice())?;
        Ok(Book {
            stage: self.stage.copy(),
            row: self.row.copy(),
            moves,
            position: self.position.duplicate(),
        })
    }

    /// Whether nothing of a game has come.
    pub(crate) fn is_before(&self) -> bool
        ensures { result ≡ is_before self.now.stage }
    {
        match self.stage {
            GameStage::Before => true,
            _ => false,
        }
    }

    /// Takes a piece that is passed over.
    pub(crate) fn pass_over(&mut self) -> bool
        ensures { IsTakenSilently result self.new (piece_passed self.old.stage self.old) }
    {
        match self.stage {
            GameStage::Before => {
                self.stage = GameStage::Moves;
                true
            },
            GameStage::Tags => {
                self.stage = GameStage::Moves;
                true
            },
            GameStage::Moves => true,
            _ => false,
        }
    }

    /// Takes a sign.
    pub(crate) fn sign(&mut self, byte: u8) -> bool
        ensures { IsTakenSilently result self.new (signed self.old byte) }
    {
        if byte == b'[' {
            return self.open();
        }
        if byte == b']' {
            return self.close();
        }
        self.pass_over()
    }

    /// Takes a text in quotes.
    pub(crate) fn quote(&mut self, text: &Text) -> bool
        ensures { IsTakenSilently result self.new (quoted self.old.stage self.old text.now) }
    {
        match mem::replace(&mut self.stage, GameStage::Told) {
            GameStage::Named(name) => {
                self.row.note(name.bytes(), text);
                true
            },
            _ => false,
        }
    }

    /// Takes a word behind `$`.
    pub(crate) fn glyph(&mut self, word: &[u8]) -> bool
        ensures { IsTakenSilently result self.new (glyphed self.old word.now) }
    {
        if word.is_empty() {
            return false;
        }
        if are_digits(word) {
            return self.pass_over();
        }
        false
    }

    /// Takes a word.
    pub(crate) fn word(&mut self, alloc: Global, word: &Text) -> Result<Read, NoMemory>
        ensures taken { IfOk result (λ read. IsTaken read self.new (worded self.old.stage self.old word.now)) }
        ensures unchanged { OnErr result (self.new ≡ self.old) }
    {
        match self.stage {
            GameStage::Before => self.tell(alloc, word.bytes()),
            GameStage::Tags => self.tell(alloc, word.bytes()),
            GameStage::Moves => self.tell(alloc, word.bytes()),
            GameStage::Opened => Ok(silent(self.name(word))),
            _ => Ok(silent(false)),
        }
    }

    fn open(&mut self) -> bool
        ensures { IsTakenSilently result self.new (stage_opened self.old.stage self.old) }
    {
        match self.stage {
            GameStage::Before => {
                self.stage = GameStage::Opened;
                true
            },
            GameStage::Tags => {
                self.stage = GameStage::Opened;
                true
            },
            _ => false,
        }
    }

    fn close(&mut self) -> bool
        ensures { IsTakenSilently result self.new (closed self.old.stage self.old) }
    {
        match self.stage {
            GameStage::Told => {
                self.stage = GameStage::Tags;
                true
            },
            _ => false,
        }
    }

    /// Takes the name of a tag.
    fn name(&mut self, word: &Text) -> bool
        ensures { IsTakenSilently result self.new (tag_named self.old word.now) }
    {
        if !is_name(word.bytes()) {
            return false;
        }
        if word.bytes() == b"FEN".as_slice() {
            return false;
        }
        self.stage = GameStage::Named(word.copy());
        true
    }

    /// Takes a number, a result or a move.
    fn tell(&mut self, alloc: Global, word: &[u8]) -> Result<Read, NoMemory>
        ensures taken { IfOk result (λ read. IsTaken read self.new (piece_told self.old word.now)) }
        ensures unchanged { OnErr result (self.new ≡ self.old) }
    {
        if are_digits(word) {
            return Ok(silent(self.pass_over()));
        }
        if let Some(result) = read_result(word) {
            return self.end(alloc, result);
        }
        Ok(silent(self.play(word)?))
    }

    /// Ends the game with a result.
    fn end(&mut self, alloc: Global, ending: PgnResult) -> Result<Read, NoMemory>
        ensures game { IfOk result (λ read. read ≡ record { game = Some (game_with self.old ending); goes_on = true }) }
        ensures emptied { OnOk result (self.new ≡ no_book) }
        ensures unchanged { OnErr result (self.new ≡ self.old) }
    {
        let tags = self.row.tags(alloc)?;
        self.row = TagTexts::new();
        let moves = self.moves.take();
        self.position = Position::start(Variant::Chess);
        self.stage = GameStage::Before;
        Ok(Read {
            game: Some(PgnGame {
                tags,
                moves,
                result: ending,
            }),
            goes_on: true,
        })
    }

    /// Takes a move.
    fn play(&mut self, word: &[u8]) -> Result<bool, NoMemory>
        ensures taken { IfOk result (λ on. IsTakenSilently on self.new (move_taken self.old word.now)) }
        ensures unchanged { OnErr result (self.new ≡ self.old) }
    {
        if self.moves.len() >= MOST_HALVES {
            return Ok(false);
        }
        match self.resolve(without_praise(word)) {
            Some(m) => {
                self.make(&m)?;
                Ok(true)
            },
            None => Ok(false),
        }
    }

    /// The allowed move that a text is read as.
    fn resolve(&self, text: &[u8]) -> Option<Move>
        ensures value { result ≡ move_read (position_of_moves self.now.moves) text.now }
        ensures allowed { IfSome result (λ m. Allowed (position_of_moves self.now.moves) m) }
    {
        match read_word(text) {
            Some(word) => match self.position.resolve(&word) {
                Ok(m) => Some(m),
                Err(_) => None,
            },
            None => None,
        }
    }

    /// Makes an allowed move.
    fn make(&mut self, m: &Move) -> Result<(), NoMemory>
        requires { Allowed (position_of_moves self.old.moves) m.now }
        ensures made { OnOk result (self.new ≡ record {
          stage = Moves;
          row = self.old.row;
          moves = self.old.moves ++ m.now ∷ [];
        }) }
        ensures unchanged { OnErr result (self.new ≡ self.old) }
    {
        let kept = *m;
        self.moves.push(kept)?;
        let made = *m;
        self.position.make(made);
        self.stage = GameStage::Moves;
        Ok(())
    }
}

/// What gives no game.
pub(crate) fn silent(goes_on: bool) -> Read
    ensures { result ≡ record { game = None; goes_on = goes_on } }
{
    Read {
        game: None,
        goes_on,
    }
}

/// The result that a word is.
fn read_result(word: &[u8]) -> Option<PgnResult>
    ensures { result ≡ (if is_result word.now then Some (result_of word.now) else None) }
{
    if word == b"1-0".as_slice() {
        return Some(PgnResult::White);
    }
    if word == b"0-1".as_slice() {
        return Some(PgnResult::Black);
    }
    if word == b"1/2-1/2".as_slice() {
        return Some(PgnResult::Draw);
    }
    if word == b"*".as_slice() {
        return Some(PgnResult::Open);
    }
    None
}
