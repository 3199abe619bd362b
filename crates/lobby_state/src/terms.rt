//! The terms of a game in a line.
ghost use Rattle.std.specs.Prelude.{◌≡◌, ◌++◌, IfOk, OnOk, codes};
ghost use Rattle.lobby_state.specs.TermsText.{colour_words, terms_words};

use crate::said::joined;
use chess_model::{Colour, Terms, variant_word};
use fics_words::write_number;
use memory::NoMemory;
use std::alloc::Global;

/// Two texts, one behind the other, and behind a blank the terms.
pub(crate) fn with_terms(
    alloc: Global,
    first: &[u8],
    second: &[u8],
    terms: Terms,
) -> Result<Vec<u8>, NoMemory>
    ensures { IfOk result (λ text. text.items ≡ first.now ++ second.now ++ codes " " ++ terms_words terms) }
{
    let mut text = joined(alloc, first, second, b" ")?;
    put_terms(terms, &mut text)?;
    Ok(text)
}

/// Appends the terms as lines of the lobby have them, `M I V C`: the minutes, the increment in seconds, the variant,
/// and the colour where one is asked for.
pub(crate) fn put_terms(terms: Terms, text: &mut Vec<u8>) -> Result<(), NoMemory>
    ensures { OnOk result (text.new.items ≡ text.old.items ++ terms_words terms) }
{
    write_number(text, u64::from(terms.minutes))?;
    text.push(b' ')?;
    write_number(text, u64::from(terms.increment))?;
    text.push(b' ')?;
    text.extend_from_slice(variant_word(terms.variant).bytes())?;
    text.extend_from_slice(colour_words(terms.colour))?;
    Ok(())
}

/// The bytes of these words.
pub(crate) fn words_of_terms(alloc: Global, terms: Terms) -> Result<Vec<u8>, NoMemory>
    ensures { IfOk result (λ words. words.items ≡ terms_words terms) }
{
    let mut words = Vec::new(alloc);
    put_terms(terms, &mut words)?;
    Ok(words)
}

/// The colour, behind a blank; nothing where none is asked for.
fn colour_words(colour: Option<Colour>) -> &'static [u8]
    ensures { result.now ≡ colour_words colour }
{
    match colour {
        None => b"",
        Some(Colour::White) => b" white",
        Some(Colour::Black) => b" black",
    }
}
