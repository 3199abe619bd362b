//! Going back to the start of a game, as where one that was played is looked at again.
ghost use Rattle.std.specs.Prelude.{◌≡◌, []};
ghost use Rattle.game_board.specs.Rewind.{rewound};

use crate::game_board::GameBoard;
use clock_ledger::ClockLedger;
use variant_rules::Position;

impl GameBoard {
    /// Goes back to the start: the board is a new one whose first player is thinking since the same moment as the
    /// player to move now, with no half-move on it and none played. It keeps its room, and takes no memory.
    pub fn rewind(&mut self)
        ensures { self.new ≡ rewound self.old }
    {
        self.position = Position::start(self.terms.variant);
        self.list.truncate(0);
        self.steps.truncate(0);
        self.all.truncate(0);
        take_all_off(&mut self.white);
        take_all_off(&mut self.black);
        self.kept = None;
        self.played = 0;
        self.resumed = 0;
    }
}

/// Takes all charges off a clock.
fn take_all_off(clock: &mut ClockLedger)
    ensures { clock.new ≡ record clock.old { charges = [] } }
{
    for _taken in 0..clock.charges().len() {
        clock.back();
    }
}
