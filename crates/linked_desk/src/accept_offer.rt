//! The acceptance of an offer at a desk.
ghost use Rattle.fics_words.specs.Effect.{Takes};
ghost use Rattle.linked_desk.specs.AcceptOffer.{accept_effect};

use crate::acts::DeskReply;
use crate::game::Game;
use clock_ledger::Moment;
use fics_words::{DeskNumber, Fail, Refusal};

impl Game {
    /// Accepts for a session the earliest offer of another seat that its own lacks: it takes effect, or stands for this
    /// seat too.
    pub(crate) fn accept_offer(
        &mut self,
        desk: DeskNumber,
        session: u32,
        moment: Moment,
    ) -> Result<DeskReply, Fail>
        ensures { Takes (accept_effect desk self.old session moment) self.old self.new result }
    {
        let Some(seat) = self.seat_of(session) else {
            return Err(Fail::Refused(Refusal::NotPlaying));
        };
        if self.ended.is_some() {
            return Err(Fail::Refused(Refusal::GameOver));
        }
        let mut offers = self.offers.copied();
        let (offer, agreed) = offers.accept(seat)?;
        if agreed {
            self.agree(desk, offers, moment, seat, offer)?;
            return Ok(DeskReply::Done);
        }
        self.offers = offers;
        self.last = self.last.max(moment);
        Ok(DeskReply::Done)
    }
}
