//! `set`: says what the player wants others to send.

ghost use Rattle.std.specs.Prelude.{◌≡◌, find};
ghost use Rattle.command_words.specs.Set.{is_variable, on_or_off, set_of, set_to, values_in_row, variables};

use crate::blanks::cut_word;
use crate::command::Command;
use crate::naming::is_name;
use crate::variables::{VARIABLES, Values};
use fics_words::Refusal;

/// Reads the arguments, the name of a variable and then a value that it takes; refuses others with `BadArguments`.
pub(crate) fn read(rest: &[u8]) -> Result<Command, Refusal>
    ensures { result ≡ set_of rest.now }
{
    let Some((name, behind)) = cut_word(rest) else {
        return Err(Refusal::BadArguments);
    };
    let Some((value, end)) = cut_word(behind) else {
        return Err(Refusal::BadArguments);
    };
    match cut_word(end) {
        None => set_to(values_of(name), value),
        Some(_) => Err(Refusal::BadArguments),
    }
}

/// What the variable of that name takes.
fn values_of(name: &[u8]) -> Option<Values>
    ensures { result ≡ values_in_row (find (is_variable name.now) variables) }
{
    let row = VARIABLES.iter().find(|row| is_name(&row.0, name))?;
    Some(row.1)
}

/// The setting of a variable that takes this.
fn set_to(values: Option<Values>, value: &[u8]) -> Result<Command, Refusal>
    ensures { result ≡ set_to values value.now }
{
    match values {
        Some(Values::OnOff(variable)) => match is_on(value) {
            Some(on) => Ok(Command::Set(variable, on)),
            None => Err(Refusal::BadArguments),
        },
        None => Err(Refusal::BadArguments),
    }
}

/// Whether the value is on, where it is 0 or 1.
fn is_on(value: &[u8]) -> Option<bool>
    ensures { result ≡ on_or_off value.now }
{
    if value == b"0".as_slice() {
        return Some(false);
    }
    if value == b"1".as_slice() {
        return Some(true);
    }
    None
}
