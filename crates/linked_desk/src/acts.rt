//! The acts at a desk, and which game answers them.
ghost use Rattle.std.specs.Prelude.{◌≡◌};
ghost use Rattle.fics_words.specs.Effect.{Takes};
ghost use Rattle.linked_desk.specs.Acts.{FitsDeskAct, game_effect, items_told};

use crate::game::Game;
use chess_model::MoveWord;
use clock_ledger::Moment;
use fics_words::{DeskNumber, Fail, Line};
use offer_book::Offer;
use style12_writer::ItemList;

/// What a session does at a desk.
#[derive(Drop)]
pub enum DeskAct {
    /// Plays a word at the session's board. `stamp` is the client's own time, below `STAMP_CYCLE`, where its link is
    /// stamped. Refused with `NotPlaying`, `GameOver`, `NotYourTurn`, `TooManyMoves`, then as the rules answer the
    /// word.
    Move { word: MoveWord, stamp: Option<u32> },
    /// The session's client has got the board that was shown last, at its own time `stamp`, below `STAMP_CYCLE`: the
    /// client's time for the next move counts from there. Keeps the stamp where the game runs and the session is to
    /// move; else nothing changes but the desk's moment. Refused with `NotPlaying`. Takes no memory.
    Acked { stamp: u32 },
    /// Offers something to all others at the desk. It takes effect where every other seat has it standing, and else it
    /// stands and is told; an offer of a draw that may be claimed, in chess and Fischer random, ends the game at once.
    /// Refused with `NotPlaying`, `GameOver`, `NotInVariant` for a takeback at a pair, `TooFewMoves` for a takeback of
    /// 0 and of more half-moves than the board's list has, `NotRegistered` for adjourning where a player has no
    /// account, and then, unless a draw is claimed, `AlreadyOffered` where the seat has this very offer standing,
    /// `FeedFull` where the seat has made 256 offers and declines.
    Make { offer: Offer },
    /// Accepts the earliest offer of another seat that the own one lacks. Refused with `NotPlaying`, `GameOver`, then
    /// `NoSuchOffer`.
    Accept,
    /// Declines the earliest offer of another seat that the own one lacks, for all seats. Refused with `NotPlaying`,
    /// `GameOver`, `NoSuchOffer`, then `FeedFull` where the seat has made 256 offers and declines.
    Decline,
    /// Gives the game up. Refused with `NotPlaying`, then `GameOver`.
    Resign,
    /// Calls the flag on the opponent. Refused with `NotPlaying`, `GameOver`, then `NotFallen`.
    Flag,
    /// Asks for the items that the session hasn't been given. Refused with `NotWatching`.
    Fetch,
    /// Leaves the desk. A player of a running game adjourns it where it has one board and all its players have
    /// accounts, and else loses it. Never refused, and takes no memory.
    Leave,
    /// Becomes a viewer, who is told what comes from now on, and is given the boards as they stand. Refused with
    /// `NoSuchGame`, then `AlreadyWatching`.
    Watch,
    /// Is no viewer any more. Refused with `NotWatching`, also where the session plays. Takes no memory.
    Unwatch,
    /// Asks for the boards as they stand, and their hands where the variant has them. Refused with `NoSuchGame`.
    Show,
    /// Tells all viewers this text. Refused with `NoSuchGame`, `NotWatching`, then `FeedFull` behind 1,024 remarks.
    Remark { text: Line },
}

/// What a desk answers.
#[derive(Drop)]
pub enum DeskReply {
    Done,
    /// To a Fetch the items past the session's cursor, and `over` where the game has ended; to a Watch and a Show what
    /// stands, and `over` false.
    Items { items: ItemList, over: bool },
}

impl DeskReply {
    /// A reply equal to this one, made of a copy of the items that it gives.
    pub fn twin(&self, items: ItemList) -> DeskReply
        requires { items ≡ items_told self.now }
        ensures { result ≡ self.now }
    {
        match self {
            DeskReply::Done => DeskReply::Done,
            DeskReply::Items { over, .. } => DeskReply::Items { items, over: *over },
        }
    }
}

impl Game {
    /// Makes an act of a session.
    pub(crate) fn act(
        &mut self,
        desk: DeskNumber,
        session: u32,
        moment: Moment,
        act: &DeskAct,
    ) -> Result<DeskReply, Fail>
        requires fits { FitsDeskAct act.now }
        ensures { Takes (game_effect desk self.old session moment act.now) self.old self.new result }
    {
        match act {
            DeskAct::Move { word, stamp } => self.play(desk, session, moment, word, *stamp),
            DeskAct::Acked { stamp } => self.acked(session, moment, *stamp),
            DeskAct::Make { offer } => self.make(desk, session, moment, *offer),
            DeskAct::Accept => self.accept_offer(desk, session, moment),
            DeskAct::Decline => self.decline_offer(session, moment),
            DeskAct::Resign => self.resign(desk, session, moment),
            DeskAct::Flag => self.call_flag(desk, session, moment),
            DeskAct::Fetch => self.fetch(session, moment),
            DeskAct::Leave => Ok(self.leave(desk, session, moment)),
            DeskAct::Watch => self.watch(desk, session, moment),
            DeskAct::Unwatch => self.unwatch(session, moment),
            DeskAct::Show => self.show(desk, moment),
            DeskAct::Remark { text } => self.remark(session, moment, text),
        }
    }
}
