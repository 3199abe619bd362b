//! Words of a line, between its blanks.

ghost use Rattle.std.specs.Prelude.{◌≡◌, ◌≤◌, ◌<◌, IfSome, IfNone, ◌∷◌, [], not, length, position, reverse};
ghost use Rattle.fics_words.specs.Blank.{is_blank};
ghost use Rattle.command_words.specs.Blanks.{blanks_of, behind_blanks, before_blanks, trimmed, word_length, first_word, rest_behind_word, word_numbered, words_of};

/// The text without blanks at its ends.
pub(crate) fn trimmed(text: &[u8]) -> &[u8]
    ensures { result.now ≡ trimmed text.now }
{
    before_blanks(behind_blanks(text))
}

/// The word with which the text begins.
pub(crate) fn first_word(text: &[u8]) -> &[u8]
    ensures { result.now ≡ first_word text.now }
{
    let (word, _) = text.split_at(word_length(text));
    word
}

/// The rest of the text, from the next byte behind its first word that isn't a blank.
pub(crate) fn rest_of(text: &[u8]) -> &[u8]
    ensures { result.now ≡ rest_behind_word text.now }
{
    let (_, rest) = text.split_at(word_length(text));
    behind_blanks(rest)
}

/// The word of that number, from 0, of a text that begins with no blank; empty where there are fewer.
pub(crate) fn word_at(number: u8, text: &[u8]) -> &[u8]
    ensures { result.now ≡ word_numbered number text.now }
{
    let mut rest = text;
    let mut left = number;
    'words: while left > 0 {
        rest = rest_of(rest);
        left -= 1;
    }
    first_word(rest)
}

/// The first word of the text, and the text behind it; `None` where there is no word.
pub(crate) fn cut_word(text: &[u8]) -> Option<(&[u8], &[u8])>
    ensures word { IfSome result (λ cut. words_of text.now ≡ cut.0.now ∷ words_of cut.1.now) }
    ensures none { IfNone result (words_of text.now ≡ []) }
{
    let text = behind_blanks(text);
    if text.is_empty() {
        return None;
    }
    Some((first_word(text), rest_of(text)))
}

/// The text behind the blanks with which it begins.
fn behind_blanks(text: &[u8]) -> &[u8]
    ensures { result.now ≡ behind_blanks text.now }
{
    let (_, rest) = text.split_at(blanks_of(text));
    rest
}

/// The text before the blanks with which it ends.
fn before_blanks(text: &[u8]) -> &[u8]
    ensures { result.now ≡ before_blanks text.now }
{
    let (front, _) = text.split_at(text.len() - blanks_behind(text));
    front
}

/// How many blanks the text begins with.
fn blanks_of(text: &[u8]) -> usize
    ensures value { result ≡ blanks_of text.now }
    ensures within { result ≤ length text.now }
{
    match first_other(text) {
        Some(place) => place,
        None => text.len(),
    }
}

/// How many blanks the text ends with.
fn blanks_behind(text: &[u8]) -> usize
    ensures value { result ≡ blanks_of (reverse text.now) }
    ensures within { result ≤ length text.now }
{
    match last_other(text) {
        Some(place) => place,
        None => text.len(),
    }
}

/// How long the word is with which the text begins.
fn word_length(text: &[u8]) -> usize
    ensures value { result ≡ word_length text.now }
    ensures within { result ≤ length text.now }
{
    match first_blank(text) {
        Some(place) => place,
        None => text.len(),
    }
}

/// The place of the first blank.
fn first_blank(text: &[u8]) -> Option<usize>
    ensures place { result ≡ position is_blank text.now }
    ensures within { IfSome result (λ place. place < length text.now) }
{
    text.iter().position(|byte| *byte == b' ')
}

/// The place of the first byte that isn't a blank.
fn first_other(text: &[u8]) -> Option<usize>
    ensures place { result ≡ position (λ b. not (is_blank b)) text.now }
    ensures within { IfSome result (λ place. place < length text.now) }
{
    text.iter().position(|byte| *byte != b' ')
}

/// The place of the last byte that isn't a blank, counted from the end.
fn last_other(text: &[u8]) -> Option<usize>
    ensures place { result ≡ position (λ b. not (is_blank b)) (reverse text.now) }
    ensures within { IfSome result (λ place. place < length text.now) }
{
    text.iter().rev().position(|byte| *byte != b' ')
}
