//! Words at the front of a line, each up to its blank.

ghost use Rattle.std.specs.Prelude.{◌≡◌, ◌≢◌, ◌<◌, ◌≤◌, ◌∷◌, ◌++◌, ℕ, List, IfSome, IfNone, decimal, length, position};
ghost use Rattle.fics_words.specs.Handle.{IsHandle};
ghost use Rattle.fics_words.specs.Blank.{blank, is_blank};
ghost use Rattle.replay_core.specs.Words.{IsWord};

use fics_words::{Handle, read_number};

/// The word before the first blank, and what follows that blank; `None` where there is no blank.
pub(crate) fn cut_word(bytes: &[u8]) -> Option<(&[u8], &[u8])>
    ensures parts { IfSome result (λ parts. bytes.now ≡ parts.0.now ++ blank ∷ parts.1.now) }
    ensures word { IfSome result (λ parts. IsWord parts.0.now) }
    ensures none { IfNone result (IsWord bytes.now) }
{
    let Some(place) = first_blank(bytes) else {
        return None;
    };
    Some((&bytes[..place], &bytes[place + 1..]))
}

/// The place of the first blank.
fn first_blank(bytes: &[u8]) -> Option<usize>
    ensures place { result ≡ position is_blank bytes.now }
    ensures within { IfSome result (λ place. place < length bytes.now) }
{
    bytes.iter().position(|byte| *byte == b' ')
}

/// A decimal of at most `most`, and what follows the blank behind it; `None` where the bytes don't begin so.
pub(crate) fn cut_number(bytes: &[u8], most: u64) -> Option<(u64, &[u8])>
    ensures parts { IfSome result (λ parts. bytes.now ≡ decimal parts.0 ++ blank ∷ parts.1.now) }
    ensures bound { IfSome result (λ parts. parts.0 ≤ most) }
    ensures none { IfNone result ((number : ℕ) (rest : List ℕ) → number ≤ most → bytes.now ≢ decimal number ++ blank
        ∷ rest) }
{
    let Some((word, rest)) = cut_word(bytes) else {
        return None;
    };
    let Some(number) = read_number(word, most) else {
        return None;
    };
    Some((number, rest))
}

/// A handle, and what follows the blank behind it; `None` where the bytes don't begin so.
pub(crate) fn cut_handle(bytes: &[u8]) -> Option<(Handle, &[u8])>
    ensures parts { IfSome result (λ parts. bytes.now ≡ parts.0 ++ blank ∷ parts.1.now) }
    ensures handle { IfSome result (λ parts. IsHandle parts.0) }
    ensures none { IfNone result ((name rest : List ℕ) → IsHandle name → bytes.now ≢ name ++ blank ∷ rest) }
{
    let Some((word, rest)) = cut_word(bytes) else {
        return None;
    };
    let Some(handle) = Handle::read(word) else {
        return None;
    };
    Some((handle, rest))
}
