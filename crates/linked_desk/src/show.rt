//! How a game is shown to whoever asks.
ghost use Rattle.fics_words.specs.Effect.{Takes};
ghost use Rattle.linked_desk.specs.Show.{show_effect};

use crate::acts::DeskReply;
use crate::game::Game;
use clock_ledger::Moment;
use fics_words::{DeskNumber, Fail};

impl Game {
    /// Gives the boards as they stand, and their hands where the variant has them.
    pub(crate) fn show(&mut self, desk: DeskNumber, moment: Moment) -> Result<DeskReply, Fail>
        ensures { Takes (show_effect desk self.old moment) self.old self.new result }
    {
        let items = self.present_items(desk)?;
        self.last = self.last.max(moment);
        Ok(DeskReply::Items { items, over: false })
    }
}
