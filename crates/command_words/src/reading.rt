//! From a line to its command.

ghost use Rattle.std.specs.Prelude.{◌≡◌, IfOk, map, option_copied};
ghost use Rattle.std.specs.Char.{to_ascii_lowercase};
ghost use Rattle.fics_words.specs.Effect.{Gives};
ghost use Rattle.command_words.specs.Aliases.{expanded};
ghost use Rattle.command_words.specs.Blanks.{rest_behind_word};
ghost use Rattle.command_words.specs.Commands.{command_in, command_after, command_made, command_of, move_or, command_asked, arguments_of};

use crate::aliases::{Alias, Aliases};
use crate::blanks::{first_word, rest_of, trimmed};
use crate::command::Command;
use crate::commands::{alias, matching, observe, seek, set, style, takeback, tell, unseek};
use crate::expansion::expanded;
use crate::naming::named_by;
use crate::rows::Takes;
use crate::shapes::{maybe_named, named, nothing, numbered, on_channel, with_text};
use chess_model::MoveWord;
use fics_words::{Fail, Line, MOST_LINE_BYTES, Refusal};
use memory::NoMemory;
use move_reader::read_word;
use std::alloc::Global;

/// Reads what a line asks for: its first word is replaced by its alias, once; a line that is one move word is a move;
/// any other begins with the name, the short form or a prefix of the name of a command. Refuses, in this order, with
/// `TooLong` where the line is too long after its alias, with `Unknown` or `AmbiguousWord` for its first word, and with
/// `BadArguments`.
pub fn read_command(alloc: Global, line: &Line, aliases: &Aliases) -> Result<Command, Fail>
    ensures { Gives (command_in aliases.now line.now) result }
{
    let text = trimmed(line.bytes());
    read_after(alloc, aliases.get(first_word(text)), text)
}

/// Reads a line without blanks at its ends, by the alias of its first word, if there is one.
fn read_after(alloc: Global, alias: Option<&Alias>, text: &[u8]) -> Result<Command, Fail>
    ensures { Gives (command_after (option_copied alias.entry) text.now) result }
{
    match alias {
        None => read_text(alloc, text),
        Some(alias) => read_aliased(alloc, alias, text),
    }
}

/// Reads a line, without blanks at its ends, whose first word is this alias.
fn read_aliased(alloc: Global, alias: &Alias, text: &[u8]) -> Result<Command, Fail>
    ensures { Gives (command_made (expanded alias.now.text (rest_behind_word text.now))) result }
{
    let made = expanded(alloc, alias.text.bytes(), rest_of(text))?;
    read_made(alloc, made.as_slice())
}

/// Reads what an alias made of a line.
fn read_made(alloc: Global, made: &[u8]) -> Result<Command, Fail>
    ensures { Gives (command_made made.now) result }
{
    if made.len() > MOST_LINE_BYTES {
        return Err(Fail::Refused(Refusal::TooLong));
    }
    read_text(alloc, trimmed(made))
}

/// Reads a line after its alias, without blanks at its ends.
fn read_text(alloc: Global, text: &[u8]) -> Result<Command, Fail>
    ensures { Gives (command_of text.now) result }
{
    match text {
        [] => Ok(Command::Nothing),
        [_, ..] => move_or(alloc, read_word(text), text),
    }
}

/// The move, where the text is one; else the command of its first word.
fn move_or(alloc: Global, word: Option<MoveWord>, text: &[u8]) -> Result<Command, Fail>
    ensures { Gives (move_or word text.now) result }
{
    match word {
        Some(word) => Ok(Command::Move(word)),
        None => {
            let name = lowered(alloc, first_word(text))?;
            read_asked(alloc, named_by(name.as_slice()), rest_of(text))
        }
    }
}

/// Reads the arguments of the command that was found, if one was.
fn read_asked(alloc: Global, takes: Result<Takes, Refusal>, rest: &[u8]) -> Result<Command, Fail>
    ensures { Gives (command_asked takes rest.now) result }
{
    match takes {
        Ok(takes) => read_arguments(alloc, takes, rest),
        Err(refusal) => Err(Fail::Refused(refusal)),
    }
}

/// Reads the arguments of a command.
fn read_arguments(alloc: Global, takes: Takes, rest: &[u8]) -> Result<Command, Fail>
    ensures { Gives (arguments_of takes rest.now) result }
{
    match takes {
        Takes::Nothing(which) => settled(nothing(which, rest)),
        Takes::Name(which) => settled(named(which, rest)),
        Takes::MaybeName(which) => settled(maybe_named(which, rest)),
        Takes::Text(which) => with_text(alloc, which, rest),
        Takes::Number(which) => settled(numbered(which, rest)),
        Takes::Channel(which) => settled(on_channel(which, rest)),
        Takes::Alias => alias::read(alloc, rest),
        Takes::Challenge => settled(matching::read(rest)),
        Takes::Look => settled(observe::read(rest)),
        Takes::Seek => settled(seek::read(rest)),
        Takes::Setting => settled(set::read(rest)),
        Takes::Style => settled(style::read(rest)),
        Takes::Takeback => settled(takeback::read(rest)),
        Takes::Telling => tell::read(alloc, rest),
        Takes::Unalias => alias::read_unalias(alloc, rest),
        Takes::Unseek => settled(unseek::read(rest)),
    }
}

/// The answer of a reading that takes no memory.
fn settled(answer: Result<Command, Refusal>) -> Result<Command, Fail>
    ensures { Gives answer result }
{
    match answer {
        Ok(command) => Ok(command),
        Err(refusal) => Err(Fail::Refused(refusal)),
    }
}

/// The word in lower case.
fn lowered(alloc: Global, word: &[u8]) -> Result<Vec<u8>, NoMemory>
    ensures { IfOk result (λ lower. lower.items ≡ map to_ascii_lowercase word.now) }
{
    let mut lower = Vec::from_slice(alloc, word)?;
    lower.make_ascii_lowercase();
    Ok(lower)
}
