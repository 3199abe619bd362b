//! `style`: how boards are printed.

ghost use Rattle.std.specs.Prelude.{◌≡◌};
ghost use Rattle.command_words.specs.Style.{style_of};

use crate::command::Command;
use crate::style::Style;
use fics_words::Refusal;

/// Reads the argument, 1 or 12; refuses others with `BadArguments`.
pub(crate) fn read(rest: &[u8]) -> Result<Command, Refusal>
    ensures { result ≡ style_of rest.now }
{
    if rest == b"1".as_slice() {
        return Ok(Command::Style(Style::One));
    }
    if rest == b"12".as_slice() {
        return Ok(Command::Style(Style::Twelve));
    }
    Err(Refusal::BadArguments)
}
