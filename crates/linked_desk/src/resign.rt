//! Resigning at a desk.
ghost use Rattle.std.specs.Prelude.{◌≡◌};
ghost use Rattle.fics_words.specs.Effect.{Takes};
ghost use Rattle.linked_desk.specs.Resign.{resign_effect, resignation};

use crate::acts::DeskReply;
use crate::ended::Ended;
use crate::game::Game;
use crate::seats::{board_of, colour_at};
use chess_model::Why;
use clock_ledger::Moment;
use fics_words::{DeskNumber, Fail, Refusal};

impl Game {
    /// Gives the game up for a session: the other team wins. Takes no memory.
    pub(crate) fn resign(
        &mut self,
        desk: DeskNumber,
        session: u32,
        moment: Moment,
    ) -> Result<DeskReply, Fail>
        ensures { Takes (resign_effect desk self.old session moment) self.old self.new result }
    {
        let Some(seat) = self.seat_of(session) else {
            return Err(Fail::Refused(Refusal::NotPlaying));
        };
        if self.ended.is_some() {
            return Err(Fail::Refused(Refusal::GameOver));
        }
        self.end(desk, moment, resignation(seat));
        Ok(DeskReply::Done)
    }
}

/// The other team wins, since this seat resigned.
fn resignation(seat: u8) -> Ended
    ensures { result ≡ resignation seat }
{
    Ended {
        why: Why::Resigned,
        board: board_of(seat),
        winner: Some(colour_at(seat).opposite()),
    }
}
