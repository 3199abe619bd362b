//! The words for variants, written and read.
ghost use Rattle.std.specs.Prelude.{◌≡◌, ◌≢◌, ◌+◌, ◌<◌, ◌++◌, ℕ, IfSome, IfNone, codes, decimal};
ghost use Rattle.chess_model.specs.Limits.{arrays};
ghost use Rattle.chess_model.specs.VariantWord.{IsNumbered, word_of};
ghost use Rattle.chess_model.specs.declared.variant.Variant.{Variant};

use crate::limits::ARRAYS;
use crate::text::MoveText;
use crate::variant::Variant;
use std::str;

/// The words by which players name a variant, as in what they seek and in the start line of a game: `chess`,
/// `crazyhouse`, `bughouse` or `fischer N`, where N is the array's number.
pub fn variant_word(variant: Variant) -> MoveText
    ensures { result ≡ word_of variant }
{
    match variant {
        Variant::Chess => MoveText::of(b"chess").unwrap(),
        Variant::Crazyhouse => MoveText::of(b"crazyhouse").unwrap(),
        Variant::Bughouse => MoveText::of(b"bughouse").unwrap(),
        Variant::Fischer(number) => fischer_words(number % ARRAYS),
    }
}

/// The variant that these words name, exactly where they name one; the case of the letters counts. The number of an
/// array is from 0 to 959, without leading zeros.
pub fn read_variant(word: &[u8]) -> Option<Variant>
    ensures named { IfSome result (λ variant. word.now ≡ word_of variant) }
    ensures numbered { IfSome result IsNumbered }
    ensures none { IfNone result ((variant : Variant) → word.now ≢ word_of variant) }
{
    if word == b"chess".as_slice() {
        return Some(Variant::Chess);
    }
    if word == b"crazyhouse".as_slice() {
        return Some(Variant::Crazyhouse);
    }
    if word == b"bughouse".as_slice() {
        return Some(Variant::Bughouse);
    }
    match read_fischer(word) {
        Some(number) => Some(Variant::Fischer(number)),
        None => None,
    }
}

/// The words of the array of that number.
fn fischer_words(number: u16) -> MoveText
    requires { number < arrays }
    ensures { result ≡ codes "fischer " ++ decimal number }
{
    let units = digit(number % 10);
    if number < 10 {
        return MoveText::of(&[b'f', b'i', b's', b'c', b'h', b'e', b'r', b' ', units]).unwrap();
    }
    let tens = digit(number / 10 % 10);
    if number < 100 {
        return MoveText::of(&[
            b'f', b'i', b's', b'c', b'h', b'e', b'r', b' ', tens, units,
        ]).unwrap();
    }
    let hundreds = digit(number / 100);
    MoveText::of(&[
        b'f', b'i', b's', b'c', b'h', b'e', b'r', b' ', hundreds, tens, units,
    ])
    .unwrap()
}

fn digit(number: u16) -> u8
    requires { number < 10 }
    ensures { result ≡ 48 + number }
{
    b'0' + number as u8
}

/// The number of the array that these words name.
fn read_fischer(word: &[u8]) -> Option<u16>
    ensures named { IfSome result (λ number. word.now ≡ codes "fischer " ++ decimal number) }
    ensures within { IfSome result (λ number. number < arrays) }
    ensures none { IfNone result ((number : ℕ) → number < arrays → word.now ≢ codes "fischer " ++ decimal number) }
{
    let digits = match word {
        [b'f', b'i', b's', b'c', b'h', b'e', b'r', b' ', digits @ ..] => digits,
        _ => return None,
    };
    let Ok(text) = str::from_utf8(digits) else {
        return None;
    };
    let Ok(number) = text.parse::<u16>() else {
        return None;
    };
    if number >= ARRAYS {
        return None;
    }
    if fischer_words(number).bytes() == word {
        Some(number)
    } else {
        None
    }
}
