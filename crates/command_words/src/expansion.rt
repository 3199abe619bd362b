//! What an alias makes of a line.

ghost use Rattle.std.specs.Prelude.{◌≡◌, ◌==◌, ◌≤◌, ◌∷◌, ◌++◌, IfOk, length, true};
ghost use Rattle.std.specs.List.{list_any};
ghost use Rattle.command_words.specs.Aliases.{behind_blank, expanded, filled, placed, is_place};

use crate::blanks::word_at;
use memory::NoMemory;
use std::alloc::Global;

/// An alias's text with `$1` to `$9` replaced by the argument words and `$@` by the rest of the line; a text without
/// `$` has the rest added behind a blank, if there is a rest.
pub(crate) fn expanded(alloc: Global, text: &[u8], rest: &[u8]) -> Result<Vec<u8>, NoMemory>
    ensures { IfOk result (λ made. made.items ≡ expanded text.now rest.now) }
{
    if has_sign(text) {
        filled(alloc, text, rest)
    } else {
        with_rest(alloc, text, rest)
    }
}

/// Whether a `$` stands in the text.
fn has_sign(text: &[u8]) -> bool
    ensures { result ≡ list_any (λ b. b == 36) text.now }
{
    text.iter().any(|byte| *byte == b'$')
}

/// The text and, behind a blank, the rest of the line, if there is one.
fn with_rest(alloc: Global, text: &[u8], rest: &[u8]) -> Result<Vec<u8>, NoMemory>
    ensures { IfOk result (λ made. made.items ≡ text.now ++ behind_blank rest.now) }
{
    let mut made = Vec::from_slice(alloc, text)?;
    let [_, ..] = rest else {
        return Ok(made);
    };
    made.push(b' ')?;
    made.extend_from_slice(rest)?;
    Ok(made)
}

/// An alias's text with its places filled.
fn filled(alloc: Global, text: &[u8], rest: &[u8]) -> Result<Vec<u8>, NoMemory>
    ensures { IfOk result (λ made. made.items ≡ filled rest.now text.now) }
{
    let mut made = Vec::new(alloc);
    let mut left = text;
    'fill: while let [byte, after @ ..] = left {
        left = fill_next(&mut made, *byte, after, rest)?;
    }
    Ok(made)
}

/// Appends what a byte of an alias's text stands for, and gives what is left of the text.
fn fill_next<'a>(
    made: &mut Vec<u8>,
    byte: u8,
    after: &'a [u8],
    rest: &[u8],
) -> Result<&'a [u8], NoMemory>
    ensures filled { IfOk result (λ left. made.new.items ++ filled rest.now left.now ≡ made.old.items
        ++ filled rest.now (byte ∷ after.now)) }
    ensures fewer { IfOk result (λ left. length left.now ≤ length after.now) }
{
    let [place, behind @ ..] = after else {
        made.push(byte)?;
        return Ok(after);
    };
    if byte == b'$' && is_place(*place) {
        made.extend_from_slice(placed(*place, rest))?;
        return Ok(behind);
    }
    made.push(byte)?;
    Ok(after)
}

/// Whether the byte behind a `$` makes it a place.
fn is_place(byte: u8) -> bool
    ensures { result ≡ is_place byte }
{
    byte == b'@' || b'1' <= byte && byte <= b'9'
}

/// What is put into a place: all of the rest of the line, or the argument word of that digit.
fn placed(place: u8, rest: &[u8]) -> &[u8]
    requires { is_place place ≡ true }
    ensures { result.now ≡ placed place rest.now }
{
    if place == b'@' {
        rest
    } else {
        word_at(place - b'1', rest)
    }
}
