//! `unseek`: takes back a seek, or all of them.

ghost use Rattle.std.specs.Prelude.{◌≡◌};
ghost use Rattle.command_words.specs.Unseek.{unseek_of};

use crate::command::Command;
use crate::numbers::number_of;
use fics_words::Refusal;

/// Reads the arguments, a number or nothing; refuses others with `BadArguments`.
pub(crate) fn read(rest: &[u8]) -> Result<Command, Refusal>
    ensures { result ≡ unseek_of rest.now }
{
    if rest.is_empty() {
        return Ok(Command::Unseek(None));
    }
    match number_of(u16::MAX, rest) {
        Some(number) => Ok(Command::Unseek(Some(number))),
        None => Err(Refusal::BadArguments),
    }
}
