//! An offer at a desk.
ghost use Rattle.std.specs.Prelude.{◌≡◌, ◌<◌, None};
ghost use Rattle.fics_words.specs.Effect.{Takes, first_cause, refusal_of};
ghost use Rattle.linked_desk.specs.Make.{claim_effect, claimed, make_effect, offer_effect, unfit_causes};

use crate::acts::DeskReply;
use crate::game::Game;
use crate::offering::end_without_winner;
use crate::seats::board_of;
use chess_model::Why;
use clock_ledger::Moment;
use fics_words::{DeskNumber, Fail, Refusal};
use offer_book::Offer;

impl Game {
    /// Makes an offer of a session: it takes effect where every other seat has it standing, and else it stands and is
    /// told. An offer of a draw that may be claimed ends the game at once.
    pub(crate) fn make(
        &mut self,
        desk: DeskNumber,
        session: u32,
        moment: Moment,
        offer: Offer,
    ) -> Result<DeskReply, Fail>
        ensures { Takes (make_effect desk self.old session moment offer) self.old self.new result }
    {
        let Some(seat) = self.seat_of(session) else {
            return Err(Fail::Refused(Refusal::NotPlaying));
        };
        if self.ended.is_some() {
            return Err(Fail::Refused(Refusal::GameOver));
        }
        self.fits(offer)?;
        self.claim_or_offer(desk, seat, moment, offer)
    }

    /// Whether an offer fits the desk. Refuses with `NotInVariant`, then `TooFewMoves`, or with `NotRegistered`.
    fn fits(&self, offer: Offer) -> Result<(), Refusal>
        ensures { first_cause (unfit_causes self.now offer) ≡ refusal_of result }
    {
        match offer {
            Offer::Draw => Ok(()),
            Offer::Abort => Ok(()),
            Offer::Adjourn => self.may_adjourn(),
            Offer::Takeback(n) => self.may_take_back(n),
        }
    }

    /// Whether the game may be adjourned.
    fn may_adjourn(&self) -> Result<(), Refusal>
        ensures { first_cause (unfit_causes self.now (Offer.Adjourn)) ≡ refusal_of result }
    {
        if !self.all_registered() {
            return Err(Refusal::NotRegistered);
        }
        Ok(())
    }

    /// Whether so many half-moves may be taken back.
    fn may_take_back(&self, n: u16) -> Result<(), Refusal>
        ensures { first_cause (unfit_causes self.now (Offer.Takeback n)) ≡ refusal_of result }
    {
        if self.seats.second.is_some() {
            return Err(Refusal::NotInVariant);
        }
        if self.boards.lacks_half_moves(n) {
            return Err(Refusal::TooFewMoves);
        }
        Ok(())
    }

    /// The draw that an offer of a seat claims at its board, if it does.
    fn claimed(&self, seat: u8, offer: Offer) -> Option<Why>
        ensures { result ≡ claimed self.now.boards seat offer }
    {
        match offer {
            Offer::Draw => self.boards.claim(board_of(seat)),
            Offer::Abort => None,
            Offer::Adjourn => None,
            Offer::Takeback(_) => None,
        }
    }

    /// An offer of a seat that fits the desk.
    fn claim_or_offer(
        &mut self,
        desk: DeskNumber,
        seat: u8,
        moment: Moment,
        offer: Offer,
    ) -> Result<DeskReply, Fail>
        requires seated { seat < self.old.offers.seats }
        requires running { self.old.ended ≡ None }
        ensures { Takes (claim_effect desk self.old seat moment offer (claimed self.old.boards seat offer)) self.old
            self.new result }
    {
        let Some(why) = self.claimed(seat, offer) else {
            return self.offer(desk, seat, moment, offer);
        };
        self.end(desk, moment, end_without_winner(seat, why));
        Ok(DeskReply::Done)
    }

    /// An offer of a seat that claims no draw.
    fn offer(
        &mut self,
        desk: DeskNumber,
        seat: u8,
        moment: Moment,
        offer: Offer,
    ) -> Result<DeskReply, Fail>
        requires seated { seat < self.old.offers.seats }
        requires running { self.old.ended ≡ None }
        ensures { Takes (offer_effect desk self.old seat moment offer) self.old self.new result }
    {
        if self.offers.stands(seat, offer) {
            return Err(Fail::Refused(Refusal::AlreadyOffered));
        }
        if self.tally.is_told_out(seat) {
            return Err(Fail::Refused(Refusal::FeedFull));
        }
        // the offers are made anew beside the old ones, so that want of memory for what is told changes nothing
        let mut offers = self.offers.copied();
        if offers.offer(seat, offer)? {
            self.agree(desk, offers, moment, seat, offer)?;
            self.tally.count(seat);
            return Ok(DeskReply::Done);
        }
        let item = self.offer_item(seat, offer)?;
        self.tell(offers, seat, moment, item)?;
        Ok(DeskReply::Done)
    }
}
