//! An acknowledgement of the board by a player's client.
ghost use Rattle.fics_words.specs.Effect.{Takes};
ghost use Rattle.clock_ledger.specs.Span.{IsStamp};
ghost use Rattle.linked_desk.specs.Acked.{acked_effect};

use crate::acts::DeskReply;
use crate::game::Game;
use crate::seats::{board_of, colour_at};
use clock_ledger::Moment;
use fics_words::{Fail, Refusal};

impl Game {
    /// Keeps the stamp with which a session's client acknowledged its board, where the game runs and the session is to
    /// move. Takes no memory.
    pub(crate) fn acked(
        &mut self,
        session: u32,
        moment: Moment,
        stamp: u32,
    ) -> Result<DeskReply, Fail>
        requires stamp { IsStamp stamp }
        ensures { Takes (acked_effect self.old session moment stamp) self.old self.new result }
    {
        let Some(seat) = self.seat_of(session) else {
            return Err(Fail::Refused(Refusal::NotPlaying));
        };
        if self.ended.is_none() {
            self.boards.acked(board_of(seat), colour_at(seat), stamp);
        }
        self.last = self.last.max(moment);
        Ok(DeskReply::Done)
    }
}
