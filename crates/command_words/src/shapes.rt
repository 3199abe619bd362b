//! The arguments that several commands take alike: nothing, a handle, a text, a number, a channel.

ghost use Rattle.std.specs.Prelude.{◌≡◌};
ghost use Rattle.fics_words.specs.Effect.{Gives};
ghost use Rattle.command_words.specs.Shapes.{maybe_named, command_named, nothing, numbered, on_channel, with_text};

use crate::arguments::{handle_of, text_of};
use crate::blanks::first_word;
use crate::command::Command;
use crate::numbers::{channel_of, is_no_channel, number_of};
use crate::rows::{Bare, ByName, ByNumber, MaybeByName, OnChannel, WithText};
use fics_words::{Fail, Refusal};
use std::alloc::Global;

/// Nothing; refuses with `BadArguments` where something stands there.
pub(crate) fn nothing(which: Bare, rest: &[u8]) -> Result<Command, Refusal>
    ensures { result ≡ nothing which rest.now }
{
    if rest.is_empty() {
        Ok(Command::Bare(which))
    } else {
        Err(Refusal::BadArguments)
    }
}

/// A handle; refuses others with `BadArguments`.
pub(crate) fn named(which: ByName, rest: &[u8]) -> Result<Command, Refusal>
    ensures { result ≡ command_named which rest.now }
{
    match handle_of(rest) {
        Some(name) => Ok(Command::ByName(which, name)),
        None => Err(Refusal::BadArguments),
    }
}

/// A handle or nothing; refuses others with `BadArguments`.
pub(crate) fn maybe_named(which: MaybeByName, rest: &[u8]) -> Result<Command, Refusal>
    ensures { result ≡ maybe_named which rest.now }
{
    if rest.is_empty() {
        return Ok(Command::MaybeByName(which, None));
    }
    match handle_of(rest) {
        Some(name) => Ok(Command::MaybeByName(which, Some(name))),
        None => Err(Refusal::BadArguments),
    }
}

/// A text of 1 to 800 bytes; refuses others with `BadArguments`.
pub(crate) fn with_text(alloc: Global, which: WithText, rest: &[u8]) -> Result<Command, Fail>
    ensures { Gives (with_text which rest.now) result }
{
    match text_of(alloc, rest)? {
        Some(text) => Ok(Command::WithText(which, text)),
        None => Err(Fail::Refused(Refusal::BadArguments)),
    }
}

/// A decimal up to 65,535; refuses others with `BadArguments`.
pub(crate) fn numbered(which: ByNumber, rest: &[u8]) -> Result<Command, Refusal>
    ensures { result ≡ numbered which rest.now }
{
    match number_of(u16::MAX, rest) {
        Some(number) => Ok(Command::ByNumber(which, number)),
        None => Err(Refusal::BadArguments),
    }
}

/// A channel; refuses with `BadChannel` where a decimal above 255 stands in its place, also where more stands behind
/// it, and else with `BadArguments`.
pub(crate) fn on_channel(which: OnChannel, rest: &[u8]) -> Result<Command, Refusal>
    ensures { result ≡ on_channel which rest.now }
{
    if is_no_channel(first_word(rest)) {
        return Err(Refusal::BadChannel);
    }
    match channel_of(rest) {
        Some(number) => Ok(Command::OnChannel(which, number)),
        None => Err(Refusal::BadArguments),
    }
}
