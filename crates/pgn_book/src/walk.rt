//! Reading PGN text a byte at a time.
ghost use Rattle.std.specs.Prelude.{◌≡◌, ◌==◌, ◌∷◌, ◌++◌, [], if◌then◌else◌, IfOk, OnErr, OnOk, Some, None};
ghost use Rattle.pgn_book.specs.Reading.{State, with_game_first, piece_begun, closes, ended_in, first_state, in_braces, in_line, in_quotes, in_stroke, is_at_rest, longer, nested, opens, outside, piece_of, read_from, skipping, text_started, state_at, step, step_in, took};
ghost use Rattle.pgn_book.specs.declared.place.PlaceInText.TheVariants.{InWord, InQuotes};
ghost use Rattle.pgn_book.specs.Taking.{IsStepOfByte, IsTaken, between, on_if};

use crate::book::{Book, Read, silent};
use crate::bytes::{is_among, is_sign, is_space, is_word_byte};
use crate::place::PlaceInText;
use crate::text::Text;
use memory::NoMemory;
use std::alloc::Global;
use std::marker::Model;
use std::mem;

/// How deep variations are nested at most.
const MOST_DEPTH: usize = 100;

/// Where the next byte stands, how deep inside variations, and what has come of the game.
#[derive(Drop)]
pub(crate) struct Walk {
    place: PlaceInText,
    depth: usize,
    book: Book,
}

impl Model for Walk {
    ghost use Rattle.pgn_book.specs.Reading.{State};

    ghost Value = { State };

    ghost view = { λ walk. record { place = walk.place; depth = walk.depth; book = walk.book } };
}

impl Walk {
    /// Before the first byte.
    pub(crate) fn new(alloc: Global) -> Walk
        ensures { result ≡ first_state }
    {
        Walk {
            place: PlaceInText::Start,
            depth: 0,
            book: Book::new(alloc),
        }
    }

    /// The same once more.
    pub(crate) fn duplicate(&self, alloc: Global) -> Result<Walk, NoMemory>
        ensures { IfOk result (λ copy. copy ≡ self.now) }
    {
        let book = self.book.duplicate(alloc)?;
        Ok(Walk {
            place: self.place.copy(),
            depth: self.depth,
            book,
        })
    }

    /// Takes a byte.
    pub(crate) fn step(&mut self, alloc: Global, byte: u8) -> Result<Read, NoMemory>
        ensures taken { IfOk result (λ read. IsStepOfByte read self.new (step self.old byte)) }
        ensures unchanged { OnErr result (self.new ≡ self.old) }
    {
        match mem::replace(&mut self.place, PlaceInText::InLine) {
            PlaceInText::Start => Ok(silent(self.start(byte))),
            PlaceInText::AfterOne => Ok(silent(self.mark(byte, 0xBB, PlaceInText::AfterTwo))),
            PlaceInText::AfterTwo => Ok(silent(self.mark(
                byte,
                0xBF,
                PlaceInText::Between { fresh: true },
            ))),
            PlaceInText::Between { fresh } => Ok(silent(self.begin(fresh, byte))),
            PlaceInText::InLine => Ok(silent(self.pass_line(byte))),
            PlaceInText::InBraces => Ok(silent(self.pass_braces(byte))),
            PlaceInText::InWord { glyph, word } => self.go_on(alloc, glyph, word, byte),
            PlaceInText::InQuotes(text) => Ok(silent(self.quote(text, byte))),
            PlaceInText::InStroke(text) => Ok(silent(self.stroke(text, byte))),
        }
    }

    /// Takes the end of the text. Where it goes on, the walk stands between pieces.
    pub(crate) fn finish(&mut self, alloc: Global) -> Result<Read, NoMemory>
        ensures read { IfOk result (λ read. read_from (Some self.old) []
            ≡ with_game_first read.game (read_from (on_if read.goes_on (between self.new)) [])) }
        ensures ended { IfOk result (λ read. IsStepOfByte read (between self.new)
            (ended_in self.old.place self.old.depth self.old.book)) }
        ensures unchanged { OnErr result (self.new ≡ self.old) }
    {
        match mem::replace(&mut self.place, PlaceInText::Between { fresh: false }) {
            PlaceInText::Start => Ok(silent(true)),
            PlaceInText::Between { fresh: _ } => Ok(silent(true)),
            PlaceInText::InLine => Ok(silent(true)),
            PlaceInText::InWord { glyph, word } => self.take_word(alloc, glyph, word),
            _ => Ok(silent(false)),
        }
    }

    /// Makes the walk stand between pieces.
    pub(crate) fn rest(&mut self)
        ensures { self.new ≡ between self.old }
    {
        self.place = PlaceInText::Between { fresh: false };
    }

    /// Whether nothing of a game is left, at the end of a text.
    pub(crate) fn is_at_rest(&self) -> bool
        ensures { result ≡ is_at_rest self.now.depth (Some self.now.book) }
    {
        self.depth == 0 && self.book.is_before()
    }

    /// Takes the first byte of the text.
    fn start(&mut self, byte: u8) -> bool
        ensures { on_if result self.new ≡ text_started self.old.depth self.old.book byte }
    {
        if byte == 0xEF {
            self.place = PlaceInText::AfterOne;
            return true;
        }
        self.begin(true, byte)
    }

    /// Takes a byte of the mark of UTF-8.
    fn mark(&mut self, byte: u8, wanted: u8, behind: PlaceInText) -> bool
        ensures { on_if result self.new
            ≡ (if byte == wanted then Some (state_at behind self.old.depth self.old.book) else None) }
    {
        if byte == wanted {
            self.place = behind;
            return true;
        }
        false
    }

    /// Takes the first byte of a piece.
    fn begin(&mut self, fresh: bool, byte: u8) -> bool
        ensures { on_if result self.new ≡ piece_begun fresh self.old.depth self.old.book byte }
    {
        if is_word_byte(byte) && self.depth == 0 {
            let mut word = Text::new();
            word.push(byte);
            self.place = PlaceInText::InWord { glyph: false, word };
            return true;
        }
        if is_space(byte) {
            self.place = PlaceInText::Between {
                fresh: byte == b'\n',
            };
            return true;
        }
        self.skip(fresh, byte)
    }

    /// Takes the first byte of a comment, or of a piece that isn't one.
    fn skip(&mut self, fresh: bool, byte: u8) -> bool
        ensures { on_if result self.new ≡ skipping fresh self.old.depth self.old.book byte }
    {
        if byte == b'%' && fresh {
            self.place = PlaceInText::InLine;
            return true;
        }
        if byte == b';' {
            self.place = PlaceInText::InLine;
            return true;
        }
        if byte == b'{' {
            self.place = PlaceInText::InBraces;
            return true;
        }
        self.nest(byte)
    }

    /// Takes a parenthesis, or another byte that begins no comment.
    fn nest(&mut self, byte: u8) -> bool
        ensures { on_if result self.new ≡ nested self.old.depth self.old.book byte }
    {
        if byte == b'(' {
            return self.open();
        }
        if byte == b')' {
            return self.close();
        }
        if self.depth == 0 {
            return self.outside(byte);
        }
        self.place = PlaceInText::Between { fresh: false };
        self.book.pass_over()
    }

    fn open(&mut self) -> bool
        ensures { on_if result self.new ≡ opens self.old.depth self.old.book }
    {
        if self.depth >= MOST_DEPTH {
            return false;
        }
        self.depth += 1;
        self.place = PlaceInText::Between { fresh: false };
        self.book.pass_over()
    }

    fn close(&mut self) -> bool
        ensures { on_if result self.new ≡ closes self.old.depth self.old.book }
    {
        if self.depth == 0 {
            return false;
        }
        self.depth -= 1;
        self.place = PlaceInText::Between { fresh: false };
        self.book.pass_over()
    }

    /// Takes a byte outside of variations that is no word's, and begins a glyph, a text or a sign.
    fn outside(&mut self, byte: u8) -> bool
        requires { self.old.depth ≡ 0 }
        ensures { on_if result self.new ≡ outside self.old.book byte }
    {
        if byte == b'$' {
            self.place = PlaceInText::InWord {
                glyph: true,
                word: Text::new(),
            };
            return true;
        }
        if byte == b'"' {
            self.place = PlaceInText::InQuotes(Text::new());
            return true;
        }
        if is_sign(byte) {
            self.place = PlaceInText::Between { fresh: false };
            return self.book.sign(byte);
        }
        false
    }

    fn pass_line(&mut self, byte: u8) -> bool
        ensures { on_if result self.new ≡ in_line self.old.depth self.old.book byte }
    {
        if byte == b'\n' {
            self.place = PlaceInText::Between { fresh: true };
            return true;
        }
        self.place = PlaceInText::InLine;
        true
    }

    fn pass_braces(&mut self, byte: u8) -> bool
        ensures { on_if result self.new ≡ in_braces self.old.depth self.old.book byte }
    {
        if byte == b'}' {
            self.place = PlaceInText::Between { fresh: false };
            return true;
        }
        self.place = PlaceInText::InBraces;
        true
    }

    /// Takes a byte in a word, or behind it.
    fn go_on(&mut self, alloc: Global, glyph: bool, word: Text, byte: u8) -> Result<Read, NoMemory>
        ensures taken { IfOk result (λ read. IsStepOfByte read self.new
            (step_in (InWord glyph word) self.old.depth self.old.book byte)) }
        ensures unchanged { OnErr result (self.new ≡ state_at (InWord glyph word) self.old.depth self.old.book) }
    {
        if is_word_byte(byte) {
            return Ok(silent(self.lengthen(glyph, word, byte)));
        }
        let taken = self.take_word(alloc, glyph, word)?;
        if !taken.goes_on {
            return Ok(taken);
        }
        let goes_on = self.begin(false, byte);
        Ok(Read {
            game: taken.game,
            goes_on,
        })
    }

    /// Takes the piece that a word is. Out of memory, the walk stands in the word again.
    fn take_word(&mut self, alloc: Global, glyph: bool, word: Text) -> Result<Read, NoMemory>
        ensures taken { IfOk result (λ read. IsTaken read self.new.book (took self.old.book (piece_of glyph word))) }
        ensures depth { OnOk result (self.new.depth ≡ self.old.depth) }
        ensures unchanged { OnErr result (self.new ≡ state_at (InWord glyph word) self.old.depth self.old.book) }
    {
        if glyph {
            return Ok(silent(self.book.glyph(word.bytes())));
        }
        match self.book.word(alloc, &word) {
            Ok(read) => Ok(read),
            Err(lacking) => {
                self.place = PlaceInText::InWord { glyph, word };
                Err(lacking)
            },
        }
    }

    /// Takes a byte more in a word.
    fn lengthen(&mut self, glyph: bool, mut word: Text, byte: u8) -> bool
        ensures { on_if result self.new ≡ longer (InWord glyph (word ++ byte ∷ [])) word self.old.depth self.old.book }
    {
        if !word.has_room() {
            return false;
        }
        word.push(byte);
        self.place = PlaceInText::InWord { glyph, word };
        true
    }

    /// Takes a byte in quotes.
    fn quote(&mut self, text: Text, byte: u8) -> bool
        ensures { on_if result self.new ≡ in_quotes text self.old.depth self.old.book byte }
    {
        if byte == b'"' {
            self.place = PlaceInText::Between { fresh: false };
            return self.book.quote(&text);
        }
        if byte == b'\\' {
            self.place = PlaceInText::InStroke(text);
            return true;
        }
        if byte < 32 {
            return false;
        }
        self.lengthen_text(text, byte)
    }

    /// Takes a byte behind a stroke.
    fn stroke(&mut self, text: Text, byte: u8) -> bool
        ensures { on_if result self.new ≡ in_stroke text self.old.depth self.old.book byte }
    {
        if is_among(b"\"\\", byte) {
            return self.lengthen_text(text, byte);
        }
        false
    }

    /// Takes a byte more of a text in quotes.
    fn lengthen_text(&mut self, mut text: Text, byte: u8) -> bool
        ensures { on_if result self.new ≡ longer (InQuotes (text ++ byte ∷ [])) text self.old.depth self.old.book }
    {
        if !text.has_room() {
            return false;
        }
        text.push(byte);
        self.place = PlaceInText::InQuotes(text);
        true
    }
}
