//! Move words, each in its own form.

ghost use Rattle.std.specs.Prelude.{◌≡◌, IfSome, IfNone};
ghost use Rattle.move_reader.specs.Reading.{coordinate_of, named_of, is_marked, castle_of, drop_of, reading, squared, is_mark};
ghost use Rattle.move_reader.specs.Spellings.{IsReading};
ghost use Rattle.chess_model.specs.declared.moves.MoveWord.{MoveWord};

use crate::letters::droppable;
use crate::parts::{
    WordEnd, behind, is_mark, leading_file, leading_man, leading_rank, leading_square,
    read_promotion, squared,
};
use chess_model::{Kind, MoveWord};

/// Reads a move word as players type it: two squares (`e2e4`, `e7-e8=q`), algebraic notation (FIDE Laws, appendix C,
/// where marks of capture and check may be left out), castling (`O-O`) or a drop (`P@e4`). Gives None exactly where
/// the text is no spelling of a word. A text that spells two squares is read as these.
pub fn read_word(bytes: &[u8]) -> Option<MoveWord>
    ensures read { IfSome result (λ word. IsReading bytes.now word) }
    ensures none { IfNone result ((word : MoveWord) → IsReading bytes.now word → ⊥) }
    // from left to right, as a function that computes
    ensures computed { result ≡ reading bytes.now }
{
    read_first(bytes)
}

/// The word of the first form that the text has.
fn read_first(text: &[u8]) -> Option<MoveWord>
    ensures { result ≡ reading text.now }
{
    if let Some(word) = read_coordinate(text) {
        return Some(word);
    }
    if let Some(word) = read_named(text) {
        return Some(word);
    }
    if let Some(word) = read_castling(text) {
        return Some(word);
    }
    read_drop(text)
}

/// Two squares, as `e2e4`.
fn read_coordinate(text: &[u8]) -> Option<MoveWord>
    ensures { result ≡ coordinate_of text.now }
{
    let Some((from, rest)) = leading_square(text) else {
        return None;
    };
    let Some((to, rest)) = leading_square(behind(b'-', rest)) else {
        return None;
    };
    let Some(promo) = read_promotion(rest, WordEnd::Nothing) else {
        return None;
    };
    Some(MoveWord::Coordinate { from, to, promo })
}

/// Algebraic notation, as `Nbd2`. A file and a rank with no square behind them are the target.
fn read_named(text: &[u8]) -> Option<MoveWord>
    ensures { result ≡ named_of text.now }
{
    let (man, rest) = leading_man(text);
    let kind = man.unwrap_or(Kind::Pawn);
    let (file, rest) = leading_file(rest);
    let (rank, rest) = leading_rank(rest);
    if let Some((to, end)) = leading_square(behind(b'x', rest)) {
        let Some(promo) = read_promotion(end, WordEnd::Mark) else {
            return None;
        };
        return Some(MoveWord::Named {
            kind,
            file,
            rank,
            to,
            promo,
        });
    }
    let Some((to, end)) = squared(file, rank, rest) else {
        return None;
    };
    let Some(promo) = read_promotion(end, WordEnd::Mark) else {
        return None;
    };
    Some(MoveWord::Named {
        kind,
        file: None,
        rank: None,
        to,
        promo,
    })
}

/// Castling, as `O-O`.
fn read_castling(text: &[u8]) -> Option<MoveWord>
    ensures { result ≡ castle_of text.now }
{
    if is_marked(b"O-O", text) || is_marked(b"o-o", text) || is_marked(b"0-0", text) {
        return Some(MoveWord::Castle { long: false });
    }
    if is_marked(b"O-O-O", text) || is_marked(b"o-o-o", text) || is_marked(b"0-0-0", text) {
        return Some(MoveWord::Castle { long: true });
    }
    None
}

/// A drop, as `P@e4`.
fn read_drop(text: &[u8]) -> Option<MoveWord>
    ensures { result ≡ drop_of text.now }
{
    let [letter, at, rest @ ..] = text else {
        return None;
    };
    if *at != b'@' {
        return None;
    }
    let Some(kind) = droppable(*letter) else {
        return None;
    };
    let Some((to, end)) = leading_square(rest) else {
        return None;
    };
    if is_mark(end) {
        Some(MoveWord::Drop { kind, to })
    } else {
        None
    }
}

/// Whether the text is the word, perhaps with a mark of check or mate behind it.
fn is_marked(word: &[u8], text: &[u8]) -> bool
    ensures { result ≡ is_marked word.now text.now }
{
    if text.len() < word.len() {
        return false;
    }
    let (front, end) = text.split_at(word.len());
    front == word && is_mark(end)
}
