//! `match`: challenges a player to a game.

ghost use Rattle.std.specs.Prelude.{◌≡◌};
ghost use Rattle.command_words.specs.Match.{challenge, match_of};

use crate::arguments::handle_of;
use crate::blanks::cut_word;
use crate::command::Command;
use crate::terms::{Time, read_terms};
use chess_model::Terms;
use fics_words::{Handle, Refusal};

/// The time of a challenge without numbers.
const TWO_TWELVE: Time = Time {
    minutes: 2,
    increment: 12,
};

/// Reads the arguments, a handle and the terms; refuses others with `BadArguments`.
pub(crate) fn read(rest: &[u8]) -> Result<Command, Refusal>
    ensures { result ≡ match_of rest.now }
{
    let Some((name, terms)) = cut_word(rest) else {
        return Err(Refusal::BadArguments);
    };
    challenge(handle_of(name), read_terms(TWO_TWELVE, terms))
}

/// The challenge, where the handle is one and the terms are some.
fn challenge(name: Option<Handle>, terms: Option<Terms>) -> Result<Command, Refusal>
    ensures { result ≡ challenge name terms }
{
    let Some(name) = name else {
        return Err(Refusal::BadArguments);
    };
    let Some(terms) = terms else {
        return Err(Refusal::BadArguments);
    };
    Ok(Command::Match(name, terms))
}
