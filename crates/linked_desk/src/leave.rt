//! Leaving a desk.
ghost use Rattle.std.specs.Prelude.{◌≡◌, Ok};
ghost use Rattle.fics_words.specs.Effect.{Takes};
ghost use Rattle.linked_desk.specs.Desk.{seat_of};
ghost use Rattle.linked_desk.specs.Leave.{forfeit, leave_effect, leaving_end, game_left_by};

use crate::acts::DeskReply;
use crate::ended::Ended;
use crate::game::Game;
use crate::offering::end_without_winner;
use crate::seats::{board_of, colour_at};
use chess_model::Why;
use clock_ledger::Moment;
use fics_words::DeskNumber;

impl Game {
    /// A session leaves: it is no viewer any more, and a running game in which it plays is adjourned, or lost by it.
    /// Takes no memory.
    pub(crate) fn leave(&mut self, desk: DeskNumber, session: u32, moment: Moment) -> DeskReply
        ensures { Takes (leave_effect desk self.old session moment) self.old self.new (Ok result) }
    {
        self.end_by_leaving(desk, session, moment);
        self.feed.forget(session);
        self.last = self.last.max(moment);
        DeskReply::Done
    }

    /// Ends a running game in which the session plays.
    fn end_by_leaving(&mut self, desk: DeskNumber, session: u32, moment: Moment)
        ensures { self.new ≡ game_left_by desk self.old moment (seat_of self.old session) }
    {
        let Some(seat) = self.seat_of(session) else {
            return;
        };
        if self.ended.is_some() {
            return;
        }
        let end = self.leaving_end(seat);
        self.end(desk, moment, end);
    }

    /// How the running game ends where this seat leaves.
    fn leaving_end(&self, seat: u8) -> Ended
        ensures { result ≡ leaving_end self.now seat }
    {
        if self.seats.waits() {
            return end_without_winner(seat, Why::Adjourned);
        }
        forfeit(seat)
    }
}

/// The other team wins, since this seat left.
fn forfeit(seat: u8) -> Ended
    ensures { result ≡ forfeit seat }
{
    Ended {
        why: Why::Left,
        board: board_of(seat),
        winner: Some(colour_at(seat).opposite()),
    }
}
