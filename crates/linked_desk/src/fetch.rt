//! How a viewer is given the items of a game.
ghost use Rattle.fics_words.specs.Effect.{Takes};
ghost use Rattle.linked_desk.specs.Fetch.{fetch_effect};

use crate::acts::DeskReply;
use crate::game::Game;
use clock_ledger::Moment;
use fics_words::Fail;

impl Game {
    /// Gives a viewer the items past its cursor, and moves that to the end. After the game's end it is no viewer any
    /// more.
    #[tactic(auto, using(observer_feed::proofs::Keeping::without_caught_up))]
    pub(crate) fn fetch(&mut self, session: u32, moment: Moment) -> Result<DeskReply, Fail>
        ensures { Takes (fetch_effect self.old session moment) self.old self.new result }
    {
        let items = self.feed.since(session)?;
        let over = self.ended.is_some();
        if over {
            self.feed.forget(session);
        }
        self.last = self.last.max(moment);
        Ok(DeskReply::Items { items, over })
    }
}
