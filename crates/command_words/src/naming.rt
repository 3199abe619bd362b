//! The rule by which a word names a command.

ghost use Rattle.std.specs.Prelude.{◌≡◌, count_by, find};
ghost use Rattle.command_words.specs.declared.rows.TheConstants.{ROWS};
ghost use Rattle.command_words.specs.Naming.{begins, is_called, is_name, takes_named_by, one_by_front, taken_by_row};

use crate::rows::{CommandRow, ROWS, Takes};
use fics_words::Refusal;

/// The command that a word in lower case names: the one whose name or short form it is, and else the one whose name it
/// begins. Refuses with `Unknown` where it begins none, and with `AmbiguousWord` where it begins several.
pub(crate) fn named_by(word: &[u8]) -> Result<Takes, Refusal>
    ensures { result ≡ takes_named_by word.now }
{
    match called(word) {
        Some(takes) => Ok(takes),
        None => one_by_front(count_begun(word), first_begun(word)),
    }
}

/// The one command whose name begins with a word, by how many there are and the first of them.
fn one_by_front(count: usize, begun: Option<Takes>) -> Result<Takes, Refusal>
    ensures { result ≡ one_by_front count begun }
{
    if count > 1 {
        return Err(Refusal::AmbiguousWord);
    }
    match begun {
        Some(takes) => Ok(takes),
        None => Err(Refusal::Unknown),
    }
}

/// The command whose name or short form the word is.
fn called(word: &[u8]) -> Option<Takes>
    ensures { result ≡ taken_by_row (find (is_called word.now) ROWS.now) }
{
    let row = ROWS.iter().find(|row| is_called(row, word))?;
    Some(row.2)
}

/// The first command whose name begins with the word.
fn first_begun(word: &[u8]) -> Option<Takes>
    ensures { result ≡ taken_by_row (find (begins word.now) ROWS.now) }
{
    let row = ROWS.iter().find(|row| begins(row, word))?;
    Some(row.2)
}

/// How many commands have a name that begins with the word.
fn count_begun(word: &[u8]) -> usize
    ensures { result ≡ count_by (begins word.now) ROWS.now }
{
    ROWS.iter().filter(|row| begins(row, word)).count()
}

/// Whether the word is the command's name or its short form.
fn is_called(row: &CommandRow, word: &[u8]) -> bool
    ensures { result ≡ is_called word.now row.now }
{
    is_name(&row.0, word) || word == [row.1].as_slice()
}

/// Whether the command's name begins with the word.
fn begins(row: &CommandRow, word: &[u8]) -> bool
    ensures { result ≡ begins word.now row.now }
{
    row.0.starts_with(word)
}

/// Whether the word is the name, which has blanks behind it.
pub(crate) fn is_name(name: &[u8; 9], word: &[u8]) -> bool
    ensures { result ≡ is_name word.now name.now }
{
    name.starts_with(word) && name.iter().filter(|byte| **byte != b' ').count() == word.len()
}
