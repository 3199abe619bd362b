//! `alias` and `unalias`: make a name stand for a text, and for nothing any more.

ghost use Rattle.std.specs.Prelude.{if◌then◌else◌, ◌≡◌, IfOk, Some, None};
ghost use Rattle.fics_words.specs.Effect.{Gives};
ghost use Rattle.command_words.specs.Alias.{alias_command, alias_from, unalias_command};
ghost use Rattle.command_words.specs.Aliases.{is_alias_name};

use crate::aliases::is_alias_name;
use crate::arguments::text_of;
use crate::blanks::{first_word, rest_of};
use crate::command::Command;
use fics_words::{Fail, Line, Refusal};
use memory::NoMemory;
use std::alloc::Global;

/// Reads the arguments of `alias`, a name of 1 to 15 lower-case letters and a text of 1 to 800 bytes; refuses others
/// with `BadArguments`.
pub(crate) fn read(alloc: Global, rest: &[u8]) -> Result<Command, Fail>
    ensures { Gives (alias_command rest.now) result }
{
    read_alias(alloc, first_word(rest), rest_of(rest))
}

/// The command of a name and a text.
fn read_alias(alloc: Global, name: &[u8], text: &[u8]) -> Result<Command, Fail>
    ensures { Gives (alias_from name.now text.now) result }
{
    let Some(name) = name_of(alloc, name)? else {
        return Err(Fail::Refused(Refusal::BadArguments));
    };
    match text_of(alloc, text)? {
        Some(text) => Ok(Command::Alias { name, text }),
        None => Err(Fail::Refused(Refusal::BadArguments)),
    }
}

/// Reads the argument of `unalias`, a name of 1 to 15 lower-case letters; refuses others with `BadArguments`.
pub(crate) fn read_unalias(alloc: Global, rest: &[u8]) -> Result<Command, Fail>
    ensures { Gives (unalias_command rest.now) result }
{
    match name_of(alloc, rest)? {
        Some(name) => Ok(Command::Unalias(name)),
        None => Err(Fail::Refused(Refusal::BadArguments)),
    }
}

/// The name of an alias, if the bytes are one.
fn name_of(alloc: Global, bytes: &[u8]) -> Result<Option<Line>, NoMemory>
    ensures { IfOk result (λ name. name ≡ (if is_alias_name bytes.now then Some bytes.now else None)) }
{
    if !is_alias_name(bytes) {
        return Ok(None);
    }
    Ok(Some(Line::from_bytes(Vec::from_slice(alloc, bytes)?)))
}
