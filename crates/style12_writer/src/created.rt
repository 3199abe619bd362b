//! The line of a game's beginning.
ghost use Rattle.std.specs.Prelude.{◌≡◌, IfOk};
ghost use Rattle.style12_writer.specs.CreatedLine.{created_text};

use crate::match_line::match_line;
use chess_model::Terms;
use fics_words::{Handle, Line};
use memory::NoMemory;
use std::alloc::Global;

/// The line that tells that a game begins, `{Game G (W vs. B) Creating M I V match.}`.
pub fn created_line(
    alloc: Global,
    game: u16,
    white: &Handle,
    black: &Handle,
    terms: &Terms,
) -> Result<Line, NoMemory>
    ensures { IfOk result (λ line. line ≡ created_text game white.now black.now terms.now) }
{
    match_line(alloc, b"Creating", game, white, black, terms)
}
