//! The command `bot`: the lines of the input make a game, and the bot answers at its end.

ghost use Rattle.std.specs.Prelude.{◌≡◌, ◌≤◌};
ghost use Rattle.edge_traits.specs.Faults.{Rose};
ghost use Rattle.cmd_lines.specs.Ends.{OnReadFault, OnWriteFault};
ghost use Rattle.cmd_bot.specs.BotEnds.{BotEnds};
ghost use Rattle.cmd_bot.specs.BotLines.{answer_line, bot_answer};

use crate::game::Game;
use crate::reading::read_bot_variant;
use cmd_lines::{ClosingAnswerer, End, LineAnswerer, answer_each_and_close};
use edge_traits::{Sink, Source};
use memory::NoMemory;
use std::alloc::Global;
use std::marker::Model;

const LINE_END: &[u8] = b"\n";

/// The game of the lines that came, which contracts see as that game, if there is one. How far the bot looks ahead is a
/// part of the type, so that what it answers is one function of the lines.
#[derive(Drop)]
struct BotBoard<const DEPTH: u8> {
    alloc: Global,
    game: Option<Game>,
}

impl<const DEPTH: u8> Model for BotBoard<DEPTH> {
    ghost use Rattle.cmd_bot.specs.BotLines.{BotState};

    ghost Value = { BotState };

    ghost view = { λ bot. bot.game };
}

impl<const DEPTH: u8> BotBoard<DEPTH> {
    ghost use Rattle.std.specs.Prelude.{◌≡◌, MatchOption, Some, true, false};
    ghost use Rattle.cmd_bot.specs.Game.{new_game, variant_named};

    /// Begins the game of the variant that the line names; false, and nothing changes, where it names none.
    fn begin(&mut self, line: &[u8]) -> bool
        ensures { MatchOption (variant_named DEPTH line.now) ((result ≡ false) × (self.new ≡ self.old))
            (λ variant. (result ≡ true) × (self.new ≡ Some (new_game variant))) }
    {
        let Some(variant) = read_bot_variant(line, DEPTH) else {
            return false;
        };
        drop(self.game.replace(Game::start(self.alloc, variant)));
        true
    }
}

impl<const DEPTH: u8> LineAnswerer for BotBoard<DEPTH> {
    ghost use Rattle.cmd_bot.specs.BotLines.{bot_lines};

    ghost command = { bot_lines DEPTH };

    fn answer_line(&mut self, line: &[u8], _out: &mut Vec<u8>) -> Result<bool, NoMemory> {
        if let Some(game) = &mut self.game {
            return game.play(line);
        }
        Ok(self.begin(line))
    }

    fn ending(&self) -> &'static [u8] {
        LINE_END
    }
}

impl<const DEPTH: u8> ClosingAnswerer for BotBoard<DEPTH> {
    ghost use Rattle.cmd_bot.specs.BotLines.{bot_answer};

    ghost closing = { bot_answer DEPTH };

    fn put_closing(&mut self, out: &mut Vec<u8>) -> Result<(), NoMemory> {
        let Some(game) = &mut self.game else {
            return Ok(());
        };
        game.put_answer(self.alloc, DEPTH, out)?;
        out.extend_from_slice(LINE_END)?;
        Ok(())
    }
}

/// Reads the source to its end, and writes what the bot answers, `depth` half-moves ahead, in the position that its
/// lines give.
pub fn bot<S: Source, K: Sink>(alloc: Global, depth: u8, source: &mut S, sink: &mut K) -> End
    requires { depth ≤ 4 }
    ensures ends { BotEnds depth (S.left source.old) (S.left source.new) (K.written sink.old) (K.written sink.new)
        result }
    ensures read_cause { OnReadFault result (Rose (S.faults source.old) (S.faults source.new)) }
    ensures write_cause { OnWriteFault result (Rose (K.faults sink.old) (K.faults sink.new)) }
{
    match depth {
        0 => bot_at::<0, S, K>(alloc, source, sink),
        1 => bot_at::<1, S, K>(alloc, source, sink),
        2 => bot_at::<2, S, K>(alloc, source, sink),
        3 => bot_at::<3, S, K>(alloc, source, sink),
        _ => bot_at::<4, S, K>(alloc, source, sink),
    }
}

fn bot_at<const DEPTH: u8, S: Source, K: Sink>(alloc: Global, source: &mut S, sink: &mut K) -> End
    ensures ends { BotEnds DEPTH (S.left source.old) (S.left source.new) (K.written sink.old) (K.written sink.new)
        result }
    ensures read_cause { OnReadFault result (Rose (S.faults source.old) (S.faults source.new)) }
    ensures write_cause { OnWriteFault result (Rose (K.faults sink.old) (K.faults sink.new)) }
{
    let bot = BotBoard::<DEPTH> { alloc, game: None };
    answer_each_and_close(alloc, bot, source, sink)
}
