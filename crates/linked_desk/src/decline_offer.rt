//! The refusal of an offer at a desk by a player.
ghost use Rattle.std.specs.Prelude.{◌≡◌, false};
ghost use Rattle.fics_words.specs.Effect.{Takes};
ghost use Rattle.linked_desk.specs.DeclineOffer.{decline_effect, refusing_effect};
ghost use Rattle.linked_desk.specs.Tally.{is_told_out};

use crate::acts::DeskReply;
use crate::game::Game;
use clock_ledger::Moment;
use fics_words::{Fail, Refusal};
use offer_book::Offers;

impl Game {
    /// Declines for a session the earliest offer of another seat that its own lacks: it stands for no seat any more,
    /// and that is told.
    pub(crate) fn decline_offer(&mut self, session: u32, moment: Moment) -> Result<DeskReply, Fail>
        ensures { Takes (decline_effect self.old session moment) self.old self.new result }
    {
        let Some(seat) = self.seat_of(session) else {
            return Err(Fail::Refused(Refusal::NotPlaying));
        };
        if self.ended.is_some() {
            return Err(Fail::Refused(Refusal::GameOver));
        }
        let mut offers = self.offers.copied();
        offers.decline(seat)?;
        if self.tally.is_told_out(seat) {
            return Err(Fail::Refused(Refusal::FeedFull));
        }
        self.tell_refusal(offers, seat, moment)
    }

    /// A seat that may tell more tells that it declines, and these offers stand.
    fn tell_refusal(&mut self, offers: Offers, seat: u8, moment: Moment) -> Result<DeskReply, Fail>
        requires seats { offers.seats ≡ self.old.offers.seats }
        requires room { is_told_out self.old.tally seat ≡ false }
        ensures { Takes (refusing_effect self.old offers seat moment) self.old self.new result }
    {
        let item = self.decline_item(seat)?;
        self.tell(offers, seat, moment, item)?;
        Ok(DeskReply::Done)
    }
}
