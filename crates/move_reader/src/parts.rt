//! The parts of a move word, read from its prefix.

ghost use Rattle.std.specs.Prelude.{◌≡◌, ◌<◌, IfSome, option_map};
ghost use Rattle.move_reader.specs.Ends.{is_word_end};
ghost use Rattle.move_reader.specs.Reading.{man_of, lookup, promotable, leading, file_of_letter, rank_of_digit, behind_byte, squared, leading_square, promotion_spelled, is_mark, is_empty};

use crate::letters::{file_of, man_of, promotion_of, rank_of};
use chess_model::{Kind, Square};

/// What may stand at the end of a word.
#[derive(Clone, Copy, Debug, PartialEq, Eq)]
pub enum WordEnd {
    /// Nothing.
    Nothing,
    /// A mark of check or mate, or nothing.
    Mark,
}

/// A man's letter, if one stands first, and the rest.
pub(crate) fn leading_man(text: &[u8]) -> (Option<Kind>, &[u8])
    ensures { (result.0, result.1.now) ≡ leading man_of text.now }
{
    let [letter, rest @ ..] = text else {
        return (None, text);
    };
    match man_of(*letter) {
        Some(kind) => (Some(kind), rest),
        None => (None, text),
    }
}

/// A file's letter, if one stands first, and the rest.
pub(crate) fn leading_file(text: &[u8]) -> (Option<u8>, &[u8])
    ensures file { (result.0, result.1.now) ≡ leading file_of_letter text.now }
    ensures within { IfSome result.0 (λ file. file < 8) }
{
    let [letter, rest @ ..] = text else {
        return (None, text);
    };
    match file_of(*letter) {
        Some(file) => (Some(file), rest),
        None => (None, text),
    }
}

/// A rank's digit, if one stands first, and the rest.
pub(crate) fn leading_rank(text: &[u8]) -> (Option<u8>, &[u8])
    ensures rank { (result.0, result.1.now) ≡ leading rank_of_digit text.now }
    ensures within { IfSome result.0 (λ rank. rank < 8) }
{
    let [digit, rest @ ..] = text else {
        return (None, text);
    };
    match rank_of(*digit) {
        Some(rank) => (Some(rank), rest),
        None => (None, text),
    }
}

/// The text behind its first byte, if that is this one; else all of it.
pub(crate) fn behind(byte: u8, text: &[u8]) -> &[u8]
    ensures { result.now ≡ behind_byte byte text.now }
{
    let [first, rest @ ..] = text else {
        return text;
    };
    if *first == byte { rest } else { text }
}

/// The square on a file and a rank, and what follows.
pub(crate) fn squared(file: Option<u8>, rank: Option<u8>, rest: &[u8]) -> Option<(Square, &[u8])>
    requires file { IfSome file (λ file. file < 8) }
    requires rank { IfSome rank (λ rank. rank < 8) }
    ensures { option_map (λ found. (found.0, found.1.now)) result ≡ squared file rank rest.now }
{
    let Some(file) = file else {
        return None;
    };
    let Some(rank) = rank else {
        return None;
    };
    Some((Square::on(file, rank), rest))
}

/// The square whose name stands first, and the rest.
pub(crate) fn leading_square(text: &[u8]) -> Option<(Square, &[u8])>
    ensures { option_map (λ found. (found.0, found.1.now)) result ≡ leading_square text.now }
{
    let [letter, digit, rest @ ..] = text else {
        return None;
    };
    squared(file_of(*letter), rank_of(*digit), rest)
}

/// Whether the text is empty, or a mark of check or mate.
pub(crate) fn is_mark(text: &[u8]) -> bool
    ensures { result ≡ is_mark text.now }
{
    match text {
        [] => true,
        [byte] => *byte == b'+' || *byte == b'#',
        _ => false,
    }
}

/// Whether the text is an end of this sort.
fn is_end(text: &[u8], end: WordEnd) -> bool
    ensures { result ≡ is_word_end end text.now }
{
    match end {
        WordEnd::Nothing => text.is_empty(),
        WordEnd::Mark => is_mark(text),
    }
}

/// The promotion letter that is first, and the rest.
fn leading_promotion(text: &[u8]) -> (Option<Kind>, &[u8])
    ensures { (result.0, result.1.now) ≡ leading (lookup promotable) text.now }
{
    let [letter, rest @ ..] = text else {
        return (None, text);
    };
    match promotion_of(*letter) {
        Some(kind) => (Some(kind), rest),
        None => (None, text),
    }
}

/// The promotion that all of the text spells, with such an end; the outer None where it spells none.
pub(crate) fn read_promotion(text: &[u8], end: WordEnd) -> Option<Option<Kind>>
    ensures { result ≡ promotion_spelled (is_word_end end) text.now }
{
    let (kind, rest) = leading_promotion(behind(b'=', text));
    if kind.is_some() {
        return if is_end(rest, end) { Some(kind) } else { None };
    }
    if is_end(text, end) { Some(None) } else { None }
}
