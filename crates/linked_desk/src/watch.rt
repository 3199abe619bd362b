//! How a session becomes a viewer of a game, and how an observer ceases to be one.
ghost use Rattle.fics_words.specs.Effect.{Takes};
ghost use Rattle.linked_desk.specs.Watch.{unwatch_effect, watch_effect};

use crate::acts::DeskReply;
use crate::game::Game;
use clock_ledger::Moment;
use fics_words::{DeskNumber, Fail, Refusal};
use observer_feed::Backlog;

impl Game {
    /// Makes the session a viewer, who is told what comes from now on, and gives it the boards as they stand. Refused
    /// with `AlreadyWatching`.
    pub(crate) fn watch(
        &mut self,
        desk: DeskNumber,
        session: u32,
        moment: Moment,
    ) -> Result<DeskReply, Fail>
        ensures { Takes (watch_effect desk self.old session moment) self.old self.new result }
    {
        if self.is_watching(session) {
            return Err(Fail::Refused(Refusal::AlreadyWatching));
        }
        let items = self.present_boards(desk)?;
        self.feed.begin(session, Backlog::FromNow)?;
        self.last = self.last.max(moment);
        Ok(DeskReply::Items { items, over: false })
    }

    /// An observer is no viewer any more. Refused with `NotWatching`, a player too. Takes no memory.
    pub(crate) fn unwatch(&mut self, session: u32, moment: Moment) -> Result<DeskReply, Fail>
        ensures { Takes (unwatch_effect self.old session moment) self.old self.new result }
    {
        if !self.is_watching(session) {
            return Err(Fail::Refused(Refusal::NotWatching));
        }
        if self.seat_of(session).is_some() {
            return Err(Fail::Refused(Refusal::NotWatching));
        }
        self.feed.forget(session);
        self.last = self.last.max(moment);
        Ok(DeskReply::Done)
    }
}
