//! A move at a desk.
ghost use Rattle.std.specs.Prelude.{◌≡◌, ◌<◌, IfSome, None};
ghost use Rattle.clock_ledger.specs.Span.{IsStamp};
ghost use Rattle.fics_words.specs.Effect.{Takes};
ghost use Rattle.linked_desk.specs.Playing.{move_effect, seat_move_effect};

use crate::acts::DeskReply;
use crate::game::{Game, ROOM_TO_END};
use crate::seats::{board_of, colour_at};
use crate::views::add_some;
use chess_model::MoveWord;
use clock_ledger::Moment;
use fics_words::{DeskNumber, Fail, Refusal};

impl Game {
    /// Plays a word of a session at its board, with its client's stamp if it has one, and tells the board, its hands
    /// where they have changed, and those of the partner's board where a captured man has come there. The opponent's
    /// offers and takebacks go; mate and stalemate end the game. All room is taken first, so that want of memory
    /// changes neither board.
    pub(crate) fn play(
        &mut self,
        desk: DeskNumber,
        session: u32,
        moment: Moment,
        word: &MoveWord,
        stamp: Option<u32>,
    ) -> Result<DeskReply, Fail>
        requires stamp { IfSome stamp IsStamp }
        ensures { Takes (move_effect desk self.old session moment word.now stamp) self.old self.new result }
    {
        let Some(seat) = self.seat_of(session) else {
            return Err(Fail::Refused(Refusal::NotPlaying));
        };
        if self.ended.is_some() {
            return Err(Fail::Refused(Refusal::GameOver));
        }
        self.play_seat(desk, seat, moment, word, stamp)
    }

    /// Plays a word of a seat of the running game.
    fn play_seat(
        &mut self,
        desk: DeskNumber,
        seat: u8,
        moment: Moment,
        word: &MoveWord,
        stamp: Option<u32>,
    ) -> Result<DeskReply, Fail>
        requires seat { seat < self.old.offers.seats }
        requires stamp { IfSome stamp IsStamp }
        requires running { self.old.ended ≡ None }
        ensures { Takes (seat_move_effect desk self.old seat moment word.now stamp) self.old self.new result }
    {
        self.feed.reserve(3 + ROOM_TO_END)?;
        let now = self.last.max(moment);
        let board = board_of(seat);
        let captured = self.boards.play(board, colour_at(seat), word, now, stamp)?;
        self.offers.moved(seat);
        self.last = now;
        let item = self.board_item(desk, board);
        let own = self.hands_at(desk, board, captured);
        let partner = self.partner_hands_at(desk, board, captured);
        add_some(&mut self.feed, item);
        add_some(&mut self.feed, own);
        add_some(&mut self.feed, partner);
        self.finish(desk, moment, board);
        Ok(DeskReply::Done)
    }
}
