//! The beginning of a line about a game.
ghost use Rattle.std.specs.Prelude.{◌≡◌, ◌+◌, ◌≤◌, ◌++◌, length};
ghost use Rattle.style12_writer.specs.GameLine.{game_text, number_text};
ghost use Rattle.style12_writer.specs.Room.{HasRoomInLine};

use crate::draft::Draft;
use fics_words::Handle;

/// Appends the number of the game and its players, `{Game G (W vs. B) `: 69 bytes at most.
pub(crate) fn put_game(line: &mut Draft, game: u16, white: &Handle, black: &Handle)
    requires room { HasRoomInLine 69 line.old }
    ensures text { line.new ≡ line.old ++ game_text game white.now black.now }
    ensures most { length line.new ≤ length line.old + 69 }
{
    put_number(line, game);
    line.name(white);
    line.text(b" vs. ");
    line.name(black);
    line.text(b") ");
}

/// Appends the number of the game, up to its players.
fn put_number(line: &mut Draft, game: u16)
    requires room { HasRoomInLine 28 line.old }
    ensures text { line.new ≡ line.old ++ number_text game }
    ensures most { length line.new ≤ length line.old + 28 }
{
    line.text(b"{Game ");
    line.number(u64::from(game));
    line.text(b" (");
}
