//! How a game that was adjourned goes on at a desk.
ghost use Rattle.std.specs.Prelude.{◌≡◌, ◌↔◌, IfOk, IsSome, None};
ghost use Rattle.std.specs.Option.{option_map};
ghost use Rattle.game_records.specs.Replays.{Replays};
ghost use Rattle.desk_boards.specs.Halves.{last_board};
ghost use Rattle.desk_boards.specs.Replaying.{replayed};
ghost use Rattle.linked_desk.specs.Restore.{finished_at, game_resumed};
ghost use Rattle.linked_desk.specs.Seating.{AllDiffer, HasPairsFor, sessions_seated};

use crate::game::Game;
use crate::occasion::Occasion;
use crate::seating::{announced, game_at, show_each};
use clock_ledger::Moment;
use desk_boards::Boards;
use fics_words::{BoardNumber, DeskNumber, Seats};
use game_records::{PackedHalf, StoredGame};
use memory::NoMemory;
use std::alloc::Global;

/// A stored game that goes on at a desk, or None where it doesn't replay.
pub(crate) fn resumed(
    alloc: Global,
    desk: DeskNumber,
    serial: u64,
    stored: &StoredGame,
    seats: &Seats,
    moment: Moment,
) -> Result<Option<Game>, NoMemory>
    requires sessions { AllDiffer (sessions_seated seats.now) }
    requires pairs { HasPairsFor stored.now.terms seats.now }
    ensures replays { IfOk result (λ found. IsSome found ↔ Replays stored.now) }
    ensures game { IfOk result (λ found. IsSome found → found
        ≡ option_map (game_resumed desk serial stored.now seats.now moment)
        (replayed stored.now.terms stored.now.halves moment)) }
{
    let mut feed = announced(alloc, Occasion::Resumption, desk, &stored.terms, seats)?;
    let Some(boards) = Boards::of_stored(alloc, stored, moment)? else {
        return Ok(None);
    };
    show_each(&mut feed, desk, seats, &boards);
    let mut game = game_at(alloc, serial, stored.terms, seats, boards, feed, moment);
    game.finish_at(desk, moment, last_board(stored.halves.as_slice()));
    Ok(Some(game))
}

impl Game {
    /// Ends the running game where the position on that board brings it, if it is one.
    fn finish_at(&mut self, desk: DeskNumber, moment: Moment, board: Option<BoardNumber>)
        requires running { self.old.ended ≡ None }
        ensures { self.new ≡ finished_at desk self.old moment board }
    {
        if let Some(board) = board {
            self.finish(desk, moment, board);
        }
    }
}

/// The board on which the last of these half-moves was made, if there is one.
fn last_board(halves: &[PackedHalf]) -> Option<BoardNumber>
    ensures { result ≡ last_board halves.now }
{
    let half = halves.last()?;
    BoardNumber::of(half.board())
}
