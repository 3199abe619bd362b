//! The board in text.
ghost use Rattle.std.specs.Prelude.{◌≡◌, ◌+◌, ◌<◌, ◌≤◌, ◌++◌, IfOk, length};
ghost use Rattle.std.specs.Fmt.{signed_decimal};
ghost use Rattle.style12_writer.specs.Board.{rank_text, ranks};
ghost use Rattle.style12_writer.specs.Room.{HasRoomInLine};
ghost use Rattle.style12_writer.specs.TextBoard.{board1_lines, clocks_text, summary_text, turn_text};
ghost use Rattle.style12_writer.specs.Clocks.{whole_seconds_of};

use crate::board::{RANKS, colour_to_move, put_squares};
use crate::draft::Draft;
use crate::item::LineList;
use crate::view::BoardView;
use chess_model::Man;
use fics_words::Line;
use memory::NoMemory;
use std::alloc::Global;

/// The lines of a board in text, after style 1 of FICS: its eight ranks, White's 8th first, and a line
/// `S to move, game G, White W, Black B, last P`, with the colour that is to move, the remaining whole seconds,
/// truncated towards zero, and the previous move.
#[tactic(auto, unfolding(crate::specs::TextBoard::board1_lines))]
pub fn board1(alloc: Global, v: &BoardView) -> Result<LineList, NoMemory>
    ensures { IfOk result (λ lines. lines ≡ board1_lines v.now) }
{
    let mut lines = rank_lines(alloc, &v.face.men)?;
    lines.push(summary(alloc, v)?)?;
    Ok(lines)
}

/// The eight ranks.
#[tactic(auto, unfolding(crate::specs::Board::ranks))]
fn rank_lines(alloc: Global, men: &[Option<Man>; 64]) -> Result<LineList, NoMemory>
    ensures { IfOk result (λ lines. lines ≡ ranks men.now) }
{
    let mut lines = LineList::new(alloc);
    for rank in RANKS {
        lines.push(rank_line(alloc, men, rank)?)?;
    }
    Ok(lines)
}

/// The line of a rank.
fn rank_line(alloc: Global, men: &[Option<Man>; 64], rank: usize) -> Result<Line, NoMemory>
    requires { rank < 8 }
    ensures { IfOk result (λ line. line ≡ rank_text men.now rank) }
{
    let mut line = Draft::new();
    put_squares(&mut line, men, rank);
    line.finish(alloc)
}

/// The line behind the ranks.
fn summary(alloc: Global, v: &BoardView) -> Result<Line, NoMemory>
    ensures { IfOk result (λ line. line ≡ summary_text v.now) }
{
    let mut line = Draft::new();
    put_to_move(&mut line, v);
    put_clocks(&mut line, v);
    line.text(b", last ");
    line.text(v.face.pretty.bytes());
    line.finish(alloc)
}

/// Appends who is to move, and in which game.
fn put_to_move(line: &mut Draft, v: &BoardView)
    requires room { HasRoomInLine 40 line.old }
    ensures text { line.new ≡ line.old ++ turn_text v.now }
    ensures most { length line.new ≤ length line.old + 40 }
{
    line.text(colour_to_move(v.face.to_move));
    line.text(b" to move, game ");
    line.number(u64::from(v.game));
}

/// Appends the clocks.
fn put_clocks(line: &mut Draft, v: &BoardView)
    requires room { HasRoomInLine 60 line.old }
    ensures text { line.new ≡ line.old ++ clocks_text v.now }
    ensures most { length line.new ≤ length line.old + 60 }
{
    line.text(b", White ");
    put_whole_seconds(line, v.remaining[0]);
    line.text(b", Black ");
    put_whole_seconds(line, v.remaining[1]);
}

/// Appends a time in milliseconds as whole seconds, truncated towards zero.
fn put_whole_seconds(line: &mut Draft, millis: i64)
    requires room { HasRoomInLine 20 line.old }
    ensures text { line.new ≡ line.old ++ signed_decimal (whole_seconds_of millis) }
    ensures most { length line.new ≤ length line.old + 20 }
{
    line.signed(millis / 1_000);
}
