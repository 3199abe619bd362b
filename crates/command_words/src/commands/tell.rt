//! `tell`: says something to a player, or to all others in a channel.

ghost use Rattle.std.specs.Prelude.{Some, []};
ghost use Rattle.fics_words.specs.Effect.{Gives};
ghost use Rattle.command_words.specs.Tell.{tell_of, tell_to, telling, telling_to};

use crate::arguments::{handle_of, text_of};
use crate::blanks::{first_word, rest_of};
use crate::command::Command;
use crate::numbers::{channel_of, is_no_channel};
use fics_words::{Fail, Handle, Refusal};
use std::alloc::Global;

/// Reads the arguments, a handle or a channel and then a text of 1 to 800 bytes. Refuses with `BadChannel` where a
/// decimal above 255 stands in their place, and else with `BadArguments`.
pub(crate) fn read(alloc: Global, rest: &[u8]) -> Result<Command, Fail>
    ensures { Gives (tell_of rest.now) result }
{
    tell_to(alloc, first_word(rest), rest_of(rest))
}

/// The tell of the text to whom the word names.
fn tell_to(alloc: Global, word: &[u8], text: &[u8]) -> Result<Command, Fail>
    ensures { Gives (tell_to word.now text.now) result }
{
    if is_no_channel(word) {
        return Err(Fail::Refused(Refusal::BadChannel));
    }
    match channel_of(word) {
        Some(channel) => tell_channel(alloc, channel, text),
        None => telling(alloc, handle_of(word), text),
    }
}

/// The tell to the channel that the word names, where the text is one.
fn tell_channel(alloc: Global, channel: u8, text: &[u8]) -> Result<Command, Fail>
    ensures { Gives (telling_to (Some channel) [] text.now) result }
{
    match text_of(alloc, text)? {
        Some(text) => Ok(Command::TellChannel(channel, text)),
        None => Err(Fail::Refused(Refusal::BadArguments)),
    }
}

/// The tell, where the handle is one and the text is one.
fn telling(alloc: Global, name: Option<Handle>, text: &[u8]) -> Result<Command, Fail>
    ensures { Gives (telling name text.now) result }
{
    let Some(name) = name else {
        return Err(Fail::Refused(Refusal::BadArguments));
    };
    match text_of(alloc, text)? {
        Some(text) => Ok(Command::Tell(name, text)),
        None => Err(Fail::Refused(Refusal::BadArguments)),
    }
}
