//! `seek`: offers a game to whoever takes it.

ghost use Rattle.std.specs.Prelude.{◌≡◌};
ghost use Rattle.command_words.specs.Seek.{seek_command};

use crate::command::Command;
use crate::terms::{Time, read_terms};
use fics_words::Refusal;

/// The time of a seek without numbers.
const FIVE_NOTHING: Time = Time {
    minutes: 5,
    increment: 0,
};

/// Reads the arguments, the terms; refuses others with `BadArguments`.
pub(crate) fn read(rest: &[u8]) -> Result<Command, Refusal>
    ensures { result ≡ seek_command rest.now }
{
    match read_terms(FIVE_NOTHING, rest) {
        Some(terms) => Ok(Command::Seek(terms)),
        None => Err(Refusal::BadArguments),
    }
}
