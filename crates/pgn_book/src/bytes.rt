//! Tests on the bytes of PGN text.
ghost use Rattle.std.specs.Prelude.{◌≡◌, nat_le, ◌&&◌};
ghost use Rattle.std.specs.List.{list_all};
ghost use Rattle.pgn_book.specs.Bytes.{is_among, is_space, is_digit, is_letter, is_name_byte, is_word_byte};
ghost use Rattle.pgn_book.specs.Lexing.{is_sign};
ghost use Rattle.pgn_book.specs.Games.{is_praise, without_praise};

/// White space: a blank, a tab, the ends of a line and of a page.
const SPACES: &[u8] = b" \n\r\t\x0B\x0C";

/// The bytes of a move beside letters, digits and `_`.
const MOVE_SIGNS: &[u8] = b"+#=-/@!?*";

/// Whether a byte is one of some.
pub(crate) fn is_among(bytes: &[u8], byte: u8) -> bool
    ensures { result ≡ is_among bytes.now byte }
{
    for one in bytes {
        if byte == *one {
            return true;
        }
    }
    false
}

/// Whether a byte is white space.
pub(crate) fn is_space(byte: u8) -> bool
    ensures { result ≡ is_space byte }
{
    is_among(SPACES, byte)
}

/// Whether a byte is a sign outside of the movetext's words: `[`, `]` or `.`.
pub(crate) fn is_sign(byte: u8) -> bool
    ensures { result ≡ is_sign byte }
{
    is_among(b"[].", byte)
}

/// Whether a byte is of a word: of a tag's name, a number, a move or a result.
pub(crate) fn is_word_byte(byte: u8) -> bool
    ensures { result ≡ is_word_byte byte }
{
    is_name_byte(byte) || is_among(MOVE_SIGNS, byte)
}

/// Whether these are digits.
pub(crate) fn are_digits(bytes: &[u8]) -> bool
    ensures { result ≡ list_all is_digit bytes.now }
{
    bytes.iter().all(|byte| is_digit(*byte))
}

/// Whether these are bytes of a tag's name.
pub(crate) fn is_name(bytes: &[u8]) -> bool
    ensures { result ≡ list_all is_name_byte bytes.now }
{
    bytes.iter().all(|byte| is_name_byte(*byte))
}

/// A word without the `!` and `?` behind it.
pub(crate) fn without_praise(word: &[u8]) -> &[u8]
    ensures { result.now ≡ without_praise word.now }
{
    let mut end = word.len();
    while end > 0 {
        if !is_praise(word[end - 1]) {
            return &word[..end];
        }
        end -= 1;
    }
    &word[..0]
}

fn is_praise(byte: u8) -> bool
    ensures { result ≡ is_praise byte }
{
    is_among(b"!?", byte)
}

fn is_digit(byte: u8) -> bool
    ensures { result ≡ is_digit byte }
{
    48 <= byte && byte <= 57
}

fn is_letter(byte: u8) -> bool
    ensures { result ≡ is_letter byte }
{
    is_large_letter(byte) || is_small_letter(byte)
}

fn is_large_letter(byte: u8) -> bool
    ensures { result ≡ (nat_le 65 byte && nat_le byte 90) }
{
    65 <= byte && byte <= 90
}

fn is_small_letter(byte: u8) -> bool
    ensures { result ≡ (nat_le 97 byte && nat_le byte 122) }
{
    97 <= byte && byte <= 122
}

/// Whether a byte is a letter, a digit or `_`.
fn is_name_byte(byte: u8) -> bool
    ensures { result ≡ is_name_byte byte }
{
    is_letter(byte) || (is_digit(byte) || byte == b'_')
}
