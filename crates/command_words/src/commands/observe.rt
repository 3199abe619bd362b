//! `observe`: looks on at a game.

ghost use Rattle.std.specs.Prelude.{◌≡◌};
ghost use Rattle.command_words.specs.Observe.{observe_of};

use crate::arguments::handle_of;
use crate::command::Command;
use crate::numbers::number_of;
use fics_words::Refusal;

/// Reads the argument, the number of a game or a handle; refuses others with `BadArguments`.
pub(crate) fn read(rest: &[u8]) -> Result<Command, Refusal>
    ensures { result ≡ observe_of rest.now }
{
    if let Some(number) = number_of(u16::MAX, rest) {
        return Ok(Command::ObserveGame(number));
    }
    match handle_of(rest) {
        Some(handle) => Ok(Command::ObservePlayer(handle)),
        None => Err(Refusal::BadArguments),
    }
}
