//! The game that the lines of `bot` make.

ghost use Rattle.std.specs.Prelude.{◌≡◌, ◌≢◌, ◌++◌, IfOk, IfSome, OnOk, MatchOption, true, false};
ghost use Rattle.chess_model.specs.Allowed.{Allowed};
ghost use Rattle.house_bot.specs.AnswerText.{best_line};
ghost use Rattle.cmd_bot.specs.Game.{is_over, move_named, new_game, bot_position, with_move};

use chess_model::{MOST_HALVES, Move, Variant};
use collections::Listed;
use house_bot::answer_text;
use memory::NoMemory;
use move_reader::read_word;
use std::alloc::Global;
use std::marker::Model;
use variant_rules::Position;

/// A game of one board from its start on, with the position after its half-moves.
#[derive(Drop)]
pub(crate) struct Game {
    moves: Listed<Move>,
    position: Position,
}

impl Model for Game {
    ghost use Rattle.std.specs.Prelude.{◌≢◌, map};
    ghost use Rattle.chess_model.specs.declared.variant.Variant.TheVariants.{Bughouse};
    ghost use Rattle.chess_model.specs.Position.{Stands};
    ghost use Rattle.cmd_bot.specs.Game.{BotGame, on_board};

    ghost Value = { BotGame };

    ghost view = { λ game. record { variant = game.position.variant; moves = game.moves } };

    ghost invariant = { λ game. (game.position.variant ≢ Bughouse) × Stands game.position (map on_board game.moves) 1 };
}

impl Game {
    /// The game before its first half-move.
    pub(crate) fn start(alloc: Global, variant: Variant) -> Game
        requires { variant ≢ Variant.Bughouse }
        ensures { result ≡ new_game variant }
    {
        Game {
            moves: Listed::new(alloc),
            position: Position::start(variant),
        }
    }

    /// Makes the half-move that a line names; false, and nothing changes, where it names none.
    pub(crate) fn play(&mut self, line: &[u8]) -> Result<bool, NoMemory>
        ensures { IfOk result (λ good. MatchOption (move_named self.old line.now)
            ((good ≡ false) × (self.new ≡ self.old)) (λ m. (good ≡ true) × (self.new ≡ with_move self.old m))) }
    {
        let Some(m) = self.named(line) else {
            return Ok(false);
        };
        self.make(&m)?;
        Ok(true)
    }

    /// The half-move that a line names: the answer to its word, where the game goes on.
    fn named(&self, line: &[u8]) -> Option<Move>
        ensures value { result ≡ move_named self.now line.now }
        ensures allowed { IfSome result (λ m. Allowed (bot_position self.now) m) }
    {
        let Some(word) = read_word(line) else {
            return None;
        };
        if self.is_over() {
            return None;
        }
        match self.position.resolve(&word) {
            Ok(m) => Some(m),
            Err(_) => None,
        }
    }

    /// Whether no further half-move is taken: after mate, after stalemate, and after 1,200 half-moves.
    fn is_over(&self) -> bool
        ensures { result ≡ is_over self.now }
    {
        if self.position.state().is_end() {
            return true;
        }
        self.moves.len() >= MOST_HALVES
    }

    /// Makes an allowed half-move.
    fn make(&mut self, m: &Move) -> Result<(), NoMemory>
        requires { Allowed (bot_position self.old) m.now }
        ensures { OnOk result (self.new ≡ with_move self.old m.now) }
    {
        let kept = *m;
        self.moves.push(kept)?;
        let made = *m;
        self.position.make(made);
        Ok(())
    }

    /// Appends the best move `depth` half-moves ahead, a blank and its value.
    pub(crate) fn put_answer(
        &mut self,
        alloc: Global,
        depth: u8,
        out: &mut Vec<u8>,
    ) -> Result<(), NoMemory>
        ensures { OnOk result (out.new.items ≡ out.old.items ++ best_line depth (bot_position self.old)) }
    {
        let text = answer_text(alloc, &mut self.position, depth)?;
        out.extend_from_slice(text.as_slice())?;
        Ok(())
    }
}
