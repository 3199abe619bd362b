//! The lines that tell that a game is on.
ghost use Rattle.std.specs.Prelude.{◌≡◌, ◌+◌, ◌≤◌, ◌++◌, IfOk, IsTrue, length};
ghost use Rattle.std.specs.List.{list_all};
ghost use Rattle.chess_model.specs.MoveText.{is_printable};
ghost use Rattle.chess_model.specs.VariantWord.{word_of};
ghost use Rattle.style12_writer.specs.MatchLine.{match_text, terms_text};
ghost use Rattle.style12_writer.specs.Room.{HasRoomInLine};

use crate::draft::Draft;
use crate::game_line::put_game;
use chess_model::{Terms, Variant, variant_word};
use fics_words::{Handle, Line};
use memory::NoMemory;
use std::alloc::Global;

/// The line `{Game G (W vs. B) WHAT M I V match.}`, where `what`, 40 bytes at most, says what becomes of the game.
pub(crate) fn match_line(
    alloc: Global,
    what: &[u8],
    game: u16,
    white: &Handle,
    black: &Handle,
    terms: &Terms,
) -> Result<Line, NoMemory>
    requires printable { IsTrue (list_all is_printable what.now) }
    requires short { length what.now ≤ 40 }
    ensures { IfOk result (λ line. line ≡ match_text what.now game white.now black.now terms.now) }
{
    let mut line = Draft::new();
    put_game(&mut line, game, white, black);
    line.text(what);
    line.text(b" ");
    put_terms(&mut line, terms);
    line.text(b" match.}");
    line.finish(alloc)
}

/// Appends the minutes, the increment and the variant.
fn put_terms(line: &mut Draft, terms: &Terms)
    requires room { HasRoomInLine 60 line.old }
    ensures text { line.new ≡ line.old ++ terms_text terms.now }
    ensures most { length line.new ≤ length line.old + 60 }
{
    line.number(u64::from(terms.minutes));
    line.text(b" ");
    line.number(u64::from(terms.increment));
    line.text(b" ");
    put_variant(line, terms.variant);
}

/// Appends the name of a variant.
fn put_variant(line: &mut Draft, variant: Variant)
    requires room { HasRoomInLine 12 line.old }
    ensures text { line.new ≡ line.old ++ word_of variant }
    ensures most { length line.new ≤ length line.old + 12 }
{
    line.text(variant_word(variant).bytes());
}
