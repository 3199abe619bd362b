//! The terms of a game, as arguments of the commands that offer one.

ghost use Rattle.std.specs.Prelude.{◌≡◌, None};
ghost use Rattle.chess_model.specs.declared.variant.Variant.TheVariants.{Chess};
ghost use Rattle.command_words.specs.Blanks.{words_of};
ghost use Rattle.command_words.specs.TermReading.{array_named, asked_colour, behind_unrated, colour_of, in_one_word, leading, leading_time, leading_variant, terms_of, variant_of};

use crate::blanks::cut_word;
use crate::numbers::number_of;
use chess_model::{ARRAYS, Colour, MOST_TIME, Terms, Variant, read_variant};

/// The greatest number of an array of Fischer random.
const LAST_ARRAY: u16 = ARRAYS - 1;

/// The time of a game.
#[derive(Clone, Copy)]
pub(crate) struct Time {
    /// The time at the start, in minutes.
    pub(crate) minutes: u16,
    /// What each charged half-move adds, in seconds.
    pub(crate) increment: u16,
}

/// Reads `[MINUTES INCREMENT] [unrated] [VARIANT] [COLOUR]`, where what stands in brackets may be left out: without
/// numbers the time is the usual one, without a variant it is chess, and without a colour none is asked for. Minutes
/// and increment are at most 600, the number of an array of Fischer random is at most 959, and the case of letters
/// counts.
pub(crate) fn read_terms(usual: Time, text: &[u8]) -> Option<Terms>
    ensures { result ≡ terms_of usual (words_of text.now) }
{
    let (time, rest) = cut_time(usual, text);
    let rest = behind_unrated(rest);
    let (variant, rest) = cut_variant(rest);
    let (colour, rest) = cut_colour(rest);
    match cut_word(rest) {
        Some(_) => None,
        None => Some(Terms {
            minutes: time.minutes,
            increment: time.increment,
            variant,
            colour,
        }),
    }
}

/// The time, if two numbers stand first, and the text behind them; else the usual time and all the text.
fn cut_time(usual: Time, text: &[u8]) -> (Time, &[u8])
    ensures { (result.0, words_of result.1.now) ≡ leading_time usual (words_of text.now) }
{
    let Some((minutes, rest)) = cut_word(text) else {
        return (usual, text);
    };
    let Some((increment, rest)) = cut_word(rest) else {
        return (usual, text);
    };
    let Some(minutes) = number_of(MOST_TIME, minutes) else {
        return (usual, text);
    };
    let Some(increment) = number_of(MOST_TIME, increment) else {
        return (usual, text);
    };
    (Time { minutes, increment }, rest)
}

/// The text behind the word `unrated`, if it stands first; else all the text.
fn behind_unrated(text: &[u8]) -> &[u8]
    ensures { words_of result.now ≡ behind_unrated (words_of text.now) }
{
    let Some((word, rest)) = cut_word(text) else {
        return text;
    };
    if word == b"unrated".as_slice() {
        return rest;
    }
    text
}

/// The variant whose words stand first, and the text behind them; else chess and all the text.
fn cut_variant(text: &[u8]) -> (Variant, &[u8])
    ensures { (result.0, words_of result.1.now) ≡ leading_variant (words_of text.now) }
{
    let Some((word, rest)) = cut_word(text) else {
        return (Variant::Chess, text);
    };
    let Some((number, rest)) = cut_word(rest) else {
        return cut_named(text);
    };
    match array_named(word, number) {
        Some(number) => (Variant::Fischer(number), rest),
        None => cut_named(text),
    }
}

/// The number of the array that the words `fischer N` name.
fn array_named(word: &[u8], number: &[u8]) -> Option<u16>
    ensures { result ≡ array_named word.now number.now }
{
    if word == b"fischer".as_slice() {
        return number_of(LAST_ARRAY, number);
    }
    None
}

/// The variant whose one word stands first, and the text behind it; else chess and all the text.
fn cut_named(text: &[u8]) -> (Variant, &[u8])
    ensures { (result.0, words_of result.1.now) ≡ leading variant_of Chess (words_of text.now) }
{
    let Some((word, rest)) = cut_word(text) else {
        return (Variant::Chess, text);
    };
    match variant_of(word) {
        Some(variant) => (variant, rest),
        None => (Variant::Chess, text),
    }
}

/// The colour whose word stands first, and the text behind it; else none and all the text.
fn cut_colour(text: &[u8]) -> (Option<Colour>, &[u8])
    ensures { (result.0, words_of result.1.now) ≡ leading asked_colour None (words_of text.now) }
{
    let Some((word, rest)) = cut_word(text) else {
        return (None, text);
    };
    match colour_of(word) {
        Some(colour) => (Some(colour), rest),
        None => (None, text),
    }
}

/// The variant of that one word.
fn variant_of(word: &[u8]) -> Option<Variant>
    ensures { result ≡ variant_of word.now }
{
    let Some(variant) = read_variant(word) else {
        return None;
    };
    in_one_word(variant)
}

/// The variant, where one word names it.
fn in_one_word(variant: Variant) -> Option<Variant>
    ensures { result ≡ in_one_word variant }
{
    match variant {
        Variant::Chess => Some(Variant::Chess),
        Variant::Crazyhouse => Some(Variant::Crazyhouse),
        Variant::Bughouse => Some(Variant::Bughouse),
        Variant::Fischer(_) => None,
    }
}

/// The colour of that word: `white`, `w`, `black` or `b`.
fn colour_of(word: &[u8]) -> Option<Colour>
    ensures { result ≡ colour_of word.now }
{
    if word == b"white".as_slice() || word == b"w".as_slice() {
        return Some(Colour::White);
    }
    if word == b"black".as_slice() || word == b"b".as_slice() {
        return Some(Colour::Black);
    }
    None
}
