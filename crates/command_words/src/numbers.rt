//! Numbers as arguments.

ghost use Rattle.std.specs.Prelude.{◌≡◌};
ghost use Rattle.std.specs.Str.{all_ascii_digits};
ghost use Rattle.command_words.specs.Numbers.{is_decimal, is_no_channel, number_within};

use crate::arguments::are_within;
use fics_words::read_number;

/// The number of which the word is the decimal, without leading zeros, if it is at most `most`.
pub(crate) fn number_of(most: u16, word: &[u8]) -> Option<u16>
    ensures { result ≡ number_within most word.now }
{
    match read_number(word, most as u64) {
        Some(number) => Some(number as u16),
        None => None,
    }
}

/// The channel of which the word is the decimal.
pub(crate) fn channel_of(word: &[u8]) -> Option<u8>
    ensures { result ≡ number_within 255 word.now }
{
    match read_number(word, 255) {
        Some(number) => Some(number as u8),
        None => None,
    }
}

/// Whether the word is a decimal above 255, however long, which no channel has as its number.
pub(crate) fn is_no_channel(word: &[u8]) -> bool
    ensures { result ≡ is_no_channel word.now }
{
    is_decimal(word) && number_of(255, word).is_none()
}

/// Whether the word is a decimal: digits, which begin with 0 only where it is `0`.
fn is_decimal(word: &[u8]) -> bool
    ensures { result ≡ is_decimal word.now }
{
    match word {
        [] => false,
        [_] => are_digits(word),
        [first, _, ..] => *first != b'0' && are_digits(word),
    }
}

/// Whether all the bytes are digits.
#[tactic(auto, using(crate::proofs::Digits::within_digits))]
fn are_digits(bytes: &[u8]) -> bool
    ensures { result ≡ all_ascii_digits bytes.now }
{
    are_within(bytes, b'0', b'9')
}
