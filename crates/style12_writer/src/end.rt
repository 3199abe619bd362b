//! The line of a game's end.
ghost use Rattle.std.specs.Prelude.{◌≡◌, ◌+◌, ◌≤◌, ◌↔◌, ◌++◌, IsSome, IsTrue, codes, length};
ghost use Rattle.std.specs.List.{list_all};
ghost use Rattle.chess_model.specs.MoveText.{is_printable};
ghost use Rattle.style12_writer.specs.EndLine.{is_decisive, loser_text, manner_text, reason_text, result_text, end_text};
ghost use Rattle.style12_writer.specs.Room.{HasRoomInLine};

use crate::draft::Draft;
use crate::game_line::put_game;
use crate::view::BoardView;
use chess_model::{Colour, Why};
use fics_words::Handle;

/// Whether a game that ends so is won by one of the players.
pub fn is_decisive(why: Why) -> bool
    ensures { result ≡ is_decisive why }
{
    match why {
        Why::Mate | Why::Resigned | Why::Flag | Why::Left => true,
        Why::Stalemate
        | Why::FlagDraw
        | Why::Agreed
        | Why::Fifty
        | Why::Threefold
        | Why::Aborted
        | Why::Adjourned => false,
    }
}

/// The line that tells how a game ended, `{Game G (W vs. B) REASON} RESULT`. `own` is false for the board of a pair on
/// which the game didn't end; `winner` is then the winning team's colour there. A winner is given exactly where
/// the end `is_decisive`: at mate, resignation, a fallen flag, and where a player left.
pub fn end_line(v: &BoardView, why: Why, winner: Option<Colour>, own: bool) -> Draft
    requires { IsSome winner ↔ IsTrue (is_decisive why) }
    ensures { result ≡ end_text v.now why winner own }
{
    let mut line = Draft::new();
    put_game(&mut line, v.game, &v.white, &v.black);
    put_reason(&mut line, v, why, winner, own);
    line.text(b"} ");
    line.text(result_of(why, winner));
    line
}

/// Appends why the game ended: 43 bytes at most.
fn put_reason(line: &mut Draft, v: &BoardView, why: Why, winner: Option<Colour>, own: bool)
    requires room { HasRoomInLine 43 line.old }
    ensures text { line.new ≡ line.old ++ reason_text v.now why winner own }
    ensures most { length line.new ≤ length line.old + 43 }
{
    if !own {
        line.text(b"partner's game ended");
        return;
    }
    put_loser(line, v, winner);
    line.text(manner(why));
}

/// Appends the name of the player who lost and a blank, where somebody won.
fn put_loser(line: &mut Draft, v: &BoardView, winner: Option<Colour>)
    requires room { HasRoomInLine 18 line.old }
    ensures text { line.new ≡ line.old ++ loser_text v.now winner }
    ensures most { length line.new ≤ length line.old + 18 }
{
    match winner {
        Some(Colour::White) => put_name(line, &v.black),
        Some(Colour::Black) => put_name(line, &v.white),
        None => {}
    }
}

/// Appends a player's name and a blank.
fn put_name(line: &mut Draft, player: &Handle)
    requires room { HasRoomInLine 18 line.old }
    ensures text { line.new ≡ line.old ++ player.now ++ codes " " }
    ensures most { length line.new ≤ length line.old + 18 }
{
    line.name(player);
    line.text(b" ");
}

/// How the game ended, or what the player who lost did.
fn manner(why: Why) -> &'static [u8]
    ensures text { result.now ≡ manner_text why }
    ensures printable { IsTrue (list_all is_printable result.now) }
    ensures most { length result.now ≤ 25 }
{
    match why {
        Why::Mate => b"checkmated",
        Why::Stalemate => b"drawn by stalemate",
        Why::Resigned => b"resigns",
        Why::Flag => b"forfeits on time",
        Why::FlagDraw => b"drawn by time",
        Why::Agreed => b"drawn by agreement",
        Why::Fifty => b"drawn by the 50 move rule",
        Why::Threefold => b"drawn by repetition",
        Why::Aborted => b"aborted",
        Why::Adjourned => b"adjourned",
        Why::Left => b"forfeits by disconnection",
    }
}

/// The result as it is printed.
fn result_of(why: Why, winner: Option<Colour>) -> &'static [u8]
    ensures text { result.now ≡ result_text winner why }
    ensures printable { IsTrue (list_all is_printable result.now) }
    ensures most { length result.now ≤ 7 }
{
    match winner {
        Some(Colour::White) => b"1-0",
        Some(Colour::Black) => b"0-1",
        None => match why {
            Why::Aborted | Why::Adjourned => b"*",
            _ => b"1/2-1/2",
        },
    }
}
