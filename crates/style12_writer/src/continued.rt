//! The line of an adjourned game that goes on.
ghost use Rattle.std.specs.Prelude.{◌≡◌, IfOk};
ghost use Rattle.style12_writer.specs.ContinuedLine.{continued_text};

use crate::match_line::match_line;
use chess_model::Terms;
use fics_words::{Handle, Line};
use memory::NoMemory;
use std::alloc::Global;

/// The line that tells that an adjourned game goes on, `{Game G (W vs. B) Continuing M I V match.}`.
pub fn continued_line(
    alloc: Global,
    game: u16,
    white: &Handle,
    black: &Handle,
    terms: &Terms,
) -> Result<Line, NoMemory>
    ensures { IfOk result (λ line. line ≡ continued_text game white.now black.now terms.now) }
{
    match_line(alloc, b"Continuing", game, white, black, terms)
}
