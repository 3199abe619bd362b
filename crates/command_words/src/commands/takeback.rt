//! `takeback`: offers to take half-moves back.

ghost use Rattle.std.specs.Prelude.{◌≡◌};
ghost use Rattle.command_words.specs.Takeback.{takeback_of};

use crate::command::Command;
use crate::numbers::number_of;
use chess_model::MOST_HALVES;
use fics_words::Refusal;

/// The most half-moves that are taken back.
const MOST: u16 = MOST_HALVES as u16;

/// Reads the arguments, a number from 1 to 1,200 or nothing, which is 1; refuses others with `BadArguments`.
pub(crate) fn read(rest: &[u8]) -> Result<Command, Refusal>
    ensures { result ≡ takeback_of rest.now }
{
    if rest.is_empty() {
        return Ok(Command::Takeback(1));
    }
    let Some(number) = number_of(MOST, rest) else {
        return Err(Refusal::BadArguments);
    };
    if number == 0 {
        return Err(Refusal::BadArguments);
    }
    Ok(Command::Takeback(number))
}
