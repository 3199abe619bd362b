//! The call of a flag at a desk.
ghost use Rattle.std.specs.Prelude.{◌≡◌};
ghost use Rattle.fics_words.specs.Effect.{Takes};
ghost use Rattle.linked_desk.specs.Flag.{flag_effect, flag_end};

use crate::acts::DeskReply;
use crate::ended::Ended;
use crate::game::Game;
use crate::seats::{board_of, colour_at};
use chess_model::{Colour, Why};
use clock_ledger::Moment;
use fics_words::{BoardNumber, DeskNumber, Fail, Refusal};

impl Game {
    /// Calls the flag for a session on its opponent. Takes no memory.
    pub(crate) fn call_flag(
        &mut self,
        desk: DeskNumber,
        session: u32,
        moment: Moment,
    ) -> Result<DeskReply, Fail>
        ensures { Takes (flag_effect desk self.old session moment) self.old self.new result }
    {
        let Some(seat) = self.seat_of(session) else {
            return Err(Fail::Refused(Refusal::NotPlaying));
        };
        if self.ended.is_some() {
            return Err(Fail::Refused(Refusal::GameOver));
        }
        let now = self.last.max(moment);
        let board = board_of(seat);
        let winner = self.boards.flag(board, colour_at(seat), now)?;
        self.end(desk, moment, flag_end(board, winner));
        Ok(DeskReply::Done)
    }
}

/// The end that a flag brings that fell at a board.
fn flag_end(board: BoardNumber, winner: Option<Colour>) -> Ended
    ensures { result ≡ flag_end board winner }
{
    match winner {
        Some(colour) => Ended {
            why: Why::Flag,
            board,
            winner: Some(colour),
        },
        None => Ended {
            why: Why::FlagDraw,
            board,
            winner: None,
        },
    }
}
