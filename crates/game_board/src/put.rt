//! Half-moves that come to a board with the charges that they have.
ghost use Rattle.std.specs.Prelude.{◌≡◌, ◌<◌, IsTrue, IfSome, Ok, length};
ghost use Rattle.chess_model.specs.Limits.{most_halves};
ghost use Rattle.chess_model.specs.Allowed.{Allowed};
ghost use Rattle.clock_ledger.specs.Charges.{IsChargeable};
ghost use Rattle.game_board.specs.Board.{position_of};
ghost use Rattle.game_board.specs.Play.{captured_in};
ghost use Rattle.game_board.specs.Put.{next_is_charged, takes_played, with_played, with_put};

use crate::clocks::charge_clocks;
use crate::game_board::GameBoard;
use crate::played::{Made, Played, Step};
use chess_model::{MOST_HALVES, Man};
use memory::NoMemory;

impl GameBoard {
    /// Whether the board takes a half-move as it is: the game hasn't ended by mate or stalemate, there is room, the
    /// half-move is allowed, and it has a charge exactly where the game is timed and it isn't the first of its colour.
    #[tactic(auto, unfolding(crate::specs::Put::takes_played))]
    pub fn takes(&self, half: &Played) -> bool
        ensures value { result ≡ takes_played self.now half.now }
        ensures short { IsTrue result → length self.now.list < most_halves }
    {
        if self.state().is_end() {
            return false;
        }
        if usize::from(self.played) >= MOST_HALVES {
            return false;
        }
        if !self.position().allowed(half.what) {
            return false;
        }
        half.charge.is_some() == self.is_next_charged()
    }

    /// Whether the next half-move is charged.
    pub(crate) fn is_next_charged(&self) -> bool
        ensures { result ≡ next_is_charged self.now }
    {
        self.white.is_next_charged(self.has_moved(self.to_move()))
    }

    /// Puts a half-move that the board takes on it, with its own charge, and gives the man that it captures. It
    /// counts as played, and as one that came with its charge, like all before it; the player to move is thinking
    /// since the same moment as before. Takes no memory.
    pub fn put(&mut self, half: Played) -> Result<Option<Man>, NoMemory>
        requires takes { IsTrue (takes_played self.old half) }
        requires sound { IfSome half.charge IsChargeable }
        ensures captured { result ≡ Ok (captured_in self.old half.what) }
        ensures after { self.new ≡ with_put self.old half }
    {
        Ok(self.lay(half))
    }

    /// Adds an allowed half-move with its charge, and gives the man that it captures.
    pub(crate) fn add(&mut self, half: &Played) -> Option<Man>
        requires allowed { Allowed (position_of self.old) half.now.what }
        requires room { self.old.played < most_halves }
        requires sound { IfSome half.now.charge IsChargeable }
        ensures captured { result ≡ captured_in self.old half.now.what }
        ensures after { self.new ≡ with_played self.old half.now }
    {
        let mover = self.to_move();
        let shown = self.position().shown(half.what);
        let undo = self.position.make(half.what);
        charge_clocks(&mut self.white, &mut self.black, mover, half.charge);
        self.steps.push(Step { undo, shown });
        self.list.push(*half);
        self.all.push(Made {
            board: self.number,
            what: half.what,
        });
        self.kept = None;
        self.played += 1;
        undo.captured()
    }
}
