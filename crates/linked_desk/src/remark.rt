//! A remark on a game.
ghost use Rattle.fics_words.specs.Effect.{Takes};
ghost use Rattle.linked_desk.specs.Remark.{remark_effect};

use crate::acts::DeskReply;
use crate::game::{Game, ROOM_TO_END};
use clock_ledger::Moment;
use fics_words::{Fail, Line, Refusal};
use style12_writer::Item;

/// The most remarks on a game.
const MOST_REMARKS: u16 = 1_024;

impl Game {
    /// A viewer's remark is told to all viewers. Refused with `NotWatching`, then `FeedFull`.
    pub(crate) fn remark(
        &mut self,
        session: u32,
        moment: Moment,
        text: &Line,
    ) -> Result<DeskReply, Fail>
        ensures { Takes (remark_effect self.old session moment text.now) self.old self.new result }
    {
        if !self.is_watching(session) {
            return Err(Fail::Refused(Refusal::NotWatching));
        }
        if self.remarks >= MOST_REMARKS {
            return Err(Fail::Refused(Refusal::FeedFull));
        }
        self.feed.reserve(1 + ROOM_TO_END)?;
        let line = text.duplicate()?;
        self.feed.add(Item::Talk(line));
        self.remarks += 1;
        self.last = self.last.max(moment);
        Ok(DeskReply::Done)
    }
}
