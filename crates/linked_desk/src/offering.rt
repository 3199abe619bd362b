//! What is told of offers, and what an offer does that every seat has made.
ghost use Rattle.std.specs.Prelude.{◌≡◌, IfOk, OnErr, OnOk, None, false, option_and_then, slice_get};
ghost use Rattle.linked_desk.specs.Ends.{ended_by};
ghost use Rattle.linked_desk.specs.Hands.{first_hands};
ghost use Rattle.linked_desk.specs.Offering.{game_agreed, decline_item, end_without_winner, offer_item, offer_text, moves_taken_back, offers_told, with_offers};
ghost use Rattle.linked_desk.specs.Tally.{is_told_out};

use crate::ended::Ended;
use crate::game::{Game, ROOM_TO_END};
use crate::hands::first_hands;
use crate::seats::board_of;
use crate::views::add_some;
use chess_model::Why;
use clock_ledger::Moment;
use fics_words::{BoardNumber, DeskNumber, Handle, Line};
use memory::NoMemory;
use offer_book::{Offer, Offers};
use std::alloc::Global;
use style12_writer::{
    Item, abort_line, adjourn_line, decline_line, draw_line, takeback_line, taken_line,
};

impl Game {
    /// What is told where the player of a seat offers.
    pub(crate) fn offer_item(&self, seat: u8, offer: Offer) -> Result<Option<Item>, NoMemory>
        ensures { IfOk result (λ x. x ≡ offer_item self.now seat offer) }
    {
        let Some(player) = self.seats.at(seat) else {
            return Ok(None);
        };
        let line = offer_line(self.alloc, &player.name, offer)?;
        Ok(Some(Item::Talk(line)))
    }

    /// What is told where the player of a seat declines.
    pub(crate) fn decline_item(&self, seat: u8) -> Result<Option<Item>, NoMemory>
        ensures { IfOk result (λ x. x ≡ decline_item self.now seat) }
    {
        let Some(player) = self.seats.at(seat) else {
            return Ok(None);
        };
        let line = decline_line(self.alloc, &player.name)?;
        Ok(Some(Item::Talk(line)))
    }

    /// A seat that may tell more tells what changed the offers to these. Running out of memory changes nothing.
    pub(crate) fn tell(
        &mut self,
        offers: Offers,
        seat: u8,
        moment: Moment,
        item: Option<Item>,
    ) -> Result<(), NoMemory>
        requires seats { offers.seats ≡ self.old.offers.seats }
        requires room { is_told_out self.old.tally seat ≡ false }
        ensures ok { OnOk result (self.new ≡ offers_told offers seat moment item self.old) }
        ensures err { OnErr result (self.new ≡ self.old) }
    {
        self.feed.reserve(1 + ROOM_TO_END)?;
        self.offers = offers;
        self.tally.count(seat);
        self.last = self.last.max(moment);
        if let Some(item) = item {
            self.feed.add(item);
        }
        Ok(())
    }

    /// An offer takes effect that every seat has made, the last one `seat`; these offers stand then. Running out of
    /// memory changes nothing.
    pub(crate) fn agree(
        &mut self,
        desk: DeskNumber,
        offers: Offers,
        moment: Moment,
        seat: u8,
        offer: Offer,
    ) -> Result<(), NoMemory>
        requires seats { offers.seats ≡ self.old.offers.seats }
        requires running { self.old.ended ≡ None }
        ensures ok { OnOk result (self.new ≡ game_agreed desk (with_offers offers moment self.old) moment seat offer) }
        ensures err { OnErr result (self.new ≡ self.old) }
    {
        match offer {
            Offer::Draw => self.settle(desk, offers, moment, seat, Why::Agreed),
            Offer::Abort => self.settle(desk, offers, moment, seat, Why::Aborted),
            Offer::Adjourn => self.settle(desk, offers, moment, seat, Why::Adjourned),
            Offer::Takeback(n) => self.take_back(desk, offers, moment, n)?,
        }
        Ok(())
    }

    /// The game ends without a winner by an act of a seat.
    pub(crate) fn settle(
        &mut self,
        desk: DeskNumber,
        offers: Offers,
        moment: Moment,
        seat: u8,
        why: Why,
    )
        requires seats { offers.seats ≡ self.old.offers.seats }
        requires running { self.old.ended ≡ None }
        ensures { self.new ≡ ended_by desk (with_offers offers moment self.old) moment (end_without_winner seat why) }
    {
        self.offers = offers;
        self.end(desk, moment, end_without_winner(seat, why));
    }

    /// Half-moves of the first board are taken back, which is told, and then the board with its hands. Running out of
    /// memory changes nothing.
    fn take_back(
        &mut self,
        desk: DeskNumber,
        offers: Offers,
        moment: Moment,
        n: u16,
    ) -> Result<(), NoMemory>
        requires seats { offers.seats ≡ self.old.offers.seats }
        ensures ok { OnOk result (self.new ≡ moves_taken_back desk (with_offers offers moment self.old) moment n) }
        ensures err { OnErr result (self.new ≡ self.old) }
    {
        self.feed.reserve(3 + ROOM_TO_END)?;
        let line = taken_line(self.alloc, n)?;
        let now = self.last.max(moment);
        self.offers = offers;
        self.boards.take_back(n, now);
        self.last = now;
        self.feed.add(Item::Talk(line));
        let item = self.board_item(desk, BoardNumber::First);
        let own = self.hands_now(desk);
        add_some(&mut self.feed, item);
        add_some(&mut self.feed, own);
        Ok(())
    }

    /// The hands of the first board as they stand, where its variant has hands.
    fn hands_now(&self, desk: DeskNumber) -> Option<Item>
        ensures { result ≡ option_and_then (first_hands desk) (slice_get self.now.boards 0) }
    {
        let board = self.boards.at(BoardNumber::First)?;
        first_hands(desk, board)
    }
}

/// The line of an offer by the player of this name.
fn offer_line(alloc: Global, name: &Handle, offer: Offer) -> Result<Line, NoMemory>
    ensures { IfOk result (λ line. line ≡ offer_text name.now offer) }
{
    match offer {
        Offer::Draw => draw_line(alloc, name),
        Offer::Abort => abort_line(alloc, name),
        Offer::Adjourn => adjourn_line(alloc, name),
        Offer::Takeback(n) => takeback_line(alloc, name, n),
    }
}

/// Nobody wins, and the end is that of the seat's board.
pub(crate) fn end_without_winner(seat: u8, why: Why) -> Ended
    ensures { result ≡ end_without_winner seat why }
{
    Ended {
        why,
        board: board_of(seat),
        winner: None,
    }
}
