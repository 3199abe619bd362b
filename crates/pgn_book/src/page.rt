//! The movetext while it is written.
ghost use Rattle.std.specs.Prelude.{◌≡◌, ◌<◌, ◌≤◌, [], ◌∷◌, ◌++◌, length, IfOk, OnOk, decimal, codes};
ghost use Rattle.chess_model.specs.Limits.{most_halves};
ghost use Rattle.pgn_book.specs.Export.{number_at};

use chess_model::MoveText;
use fics_words::write_number;
use memory::NoMemory;
use std::alloc::Global;
use std::marker::Model;

/// The most bytes of a line of movetext.
const MOST: usize = 79;

/// A text whose last line is filled with tokens.
#[derive(Drop)]
pub(crate) struct Page {
    text: Vec<u8>,
    column: usize,
}

impl Model for Page {
    ghost use Rattle.std.specs.Prelude.{◌≤◌};
    ghost use Rattle.pgn_book.specs.Pages.{Page};

    ghost Value = { Page };

    ghost view = { λ page. record { text = page.text.items; column = page.column } };

    ghost invariant = { λ page. page.column ≤ 79 };
}

impl Page {
    ghost use Rattle.pgn_book.specs.Pages.{Page, placed, Lays};

    /// A page that begins behind whole lines.
    pub(crate) fn behind(text: Vec<u8>) -> Page
        ensures { result ≡ record { text = text.items; column = 0 } }
    {
        Page { text, column: 0 }
    }

    /// The bytes of the page.
    pub(crate) fn finish(self) -> Vec<u8>
        ensures { result.items ≡ self.text }
    {
        let Page { text, column: _ } = self;
        text
    }

    /// Puts a token behind the others: after a blank, or on a new line where the line would get too long.
    pub(crate) fn put(&mut self, token: &[u8]) -> Result<(), NoMemory>
        requires { length token.now ≤ 79 }
        ensures value { OnOk result (self.new ≡ placed self.old token.now) }
        ensures lays { OnOk result (Lays self.old self.new (token.now ∷ [])) }
    {
        if self.column == 0 {
            self.text.extend_from_slice(token)?;
            self.column = token.len();
            return Ok(());
        }
        if self.column + 1 + token.len() <= MOST {
            self.text.push(b' ')?;
            self.text.extend_from_slice(token)?;
            self.column += 1 + token.len();
            return Ok(());
        }
        self.text.push(b'\n')?;
        self.text.extend_from_slice(token)?;
        self.column = token.len();
        Ok(())
    }

    /// Puts a move behind the others, and its number before it where it is White's.
    pub(crate) fn put_move(
        &mut self,
        alloc: Global,
        place: usize,
        text: &MoveText,
    ) -> Result<(), NoMemory>
        requires { place ≤ most_halves }
        ensures { OnOk result (Lays self.old self.new (number_at place ++ text.now ∷ [])) }
    {
        if place % 2 == 0 {
            return self.put_numbered(alloc, place / 2 + 1, text);
        }
        self.put(text.bytes())
    }

    fn put_numbered(
        &mut self,
        alloc: Global,
        number: usize,
        text: &MoveText,
    ) -> Result<(), NoMemory>
        requires { number ≤ 601 }
        ensures { OnOk result (Lays self.old self.new ((decimal number ++ codes ".") ∷ text.now ∷ [])) }
    {
        self.put_number(alloc, number)?;
        self.put(text.bytes())?;
        Ok(())
    }

    fn put_number(&mut self, alloc: Global, number: usize) -> Result<(), NoMemory>
        requires { number ≤ 601 }
        ensures { OnOk result (Lays self.old self.new ((decimal number ++ codes ".") ∷ [])) }
    {
        let token = number_token(alloc, number)?;
        self.put(token.as_slice())
    }
}

/// The number of a move with its dot.
fn number_token(alloc: Global, number: usize) -> Result<Vec<u8>, NoMemory>
    requires { number ≤ 601 }
    ensures text { IfOk result (λ token. token.items ≡ decimal number ++ codes ".") }
    ensures short { IfOk result (λ token. length token.items ≤ 79) }
{
    let mut token = Vec::new(alloc);
    write_number(&mut token, number as u64)?;
    token.push(b'.')?;
    Ok(token)
}
