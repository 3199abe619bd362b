//! The desk.
ghost use Rattle.std.specs.Prelude.{◌≡◌, ◌≤◌, ◌↔◌, ◌==◌, ℕ, None, Some, IfOk, IsSome, IsTrue, OnOk, OnErr, slice_get};
ghost use Rattle.std.specs.Option.{option_copied};
ghost use Rattle.fics_words.specs.Effect.{Takes};
ghost use Rattle.fics_words.specs.Boards.{board_place};

use crate::acts::{DeskAct, DeskReply};
use crate::ended::Ended;
use crate::game::Game;
use crate::restore::resumed;
use crate::seating::opened;
use chess_model::Terms;
use clock_ledger::Moment;
use fics_words::{BoardNumber, DeskNumber, Fail, Refusal, Seats};
use game_board::GameBoard;
use game_records::StoredGame;
use memory::NoMemory;
use std::alloc::Global;
use std::marker::Model;
use style12_writer::{Item, ItemList};

/// A desk of the hall, with the game that is played at it, if there is one.
pub struct Desk {
    number: DeskNumber,
    // apart, since who takes the desk's turn moves the desk, and a game has more than a kilobyte
    game: Option<Box<Game>>,
}

// One call for who drops a desk: a derived destructor is proved again in each crate above, with those of its parts.
impl Drop for Desk {
    fn drop(self) {
        let Desk { number: _, game } = self;
        drop(game);
    }
}

impl Model for Desk {
    ghost use Rattle.std.specs.Option.{option_map};
    ghost use Rattle.linked_desk.specs.Desk.{DeskState};

    ghost Value = { DeskState };

    ghost view = { λ d. record { number = d.number; game = option_map (λ game. game.value) d.game } };
}

impl Desk {
    ghost use Rattle.linked_desk.specs.Desk.{boards_at, serial_of, ended_at, viewer_count, items_for};
    ghost use Rattle.linked_desk.specs.Seating.{AllDiffer, HasPairsFor, names_of, sessions_seated, desk_started};
    ghost use Rattle.game_records.specs.Replays.{Replays};
    ghost use Rattle.linked_desk.specs.Restore.{restored};
    ghost use Rattle.linked_desk.specs.Shelve.{IsAdjourned, names_seated, shelved_at};
    ghost use Rattle.linked_desk.specs.Acts.{FitsDeskAct, desk_effect, items_told, missing_effect};

    /// A desk without a game.
    pub fn vacant(number: DeskNumber) -> Desk
        ensures { result ≡ record { number = number; game = None } }
    {
        Desk { number, game: None }
    }

    /// Begins a game at the vacant desk, with its clocks at `moment`, in milliseconds. The players are its viewers
    /// from the start of the feed. There is a second pair exactly for bughouse, which is played on two boards at the
    /// desk: the men that one captures come to the other. Running out of memory leaves the desk vacant.
    pub fn start(
        &mut self,
        alloc: Global,
        serial: u64,
        terms: Terms,
        seats: &Seats,
        moment: Moment,
    ) -> Result<(), NoMemory>
        requires vacant { self.old.game ≡ None }
        requires sessions { AllDiffer (sessions_seated seats.now) }
        requires names { AllDiffer (names_of seats.now) }
        requires pairs { HasPairsFor terms seats.now }
        ensures ok { OnOk result (self.new ≡ desk_started self.old serial terms seats.now moment) }
        ensures err { OnErr result (self.new ≡ self.old) }
    {
        let game = opened(alloc, self.number, serial, terms, seats, moment)?;
        let Ok(game) = Box::new(alloc, game) else {
            return Err(NoMemory);
        };
        drop(self.game.replace(game));
        Ok(())
    }

    /// Resumes a stored game at the vacant desk, and says whether it did: false exactly where the game doesn't replay,
    /// and then the desk is still vacant. The boards have the half-moves of the game with their charges, so that
    /// positions, hands and clocks are as they were; the clocks run again from `moment`, in milliseconds. The players,
    /// who sit as they sat, are the viewers from the start of the feed. Where the last half-move mated or stalemated,
    /// the game has ended, as if that half-move had just been made. Running out of memory leaves the desk vacant.
    pub fn restore(
        &mut self,
        alloc: Global,
        serial: u64,
        game: &StoredGame,
        seats: &Seats,
        moment: Moment,
    ) -> Result<bool, NoMemory>
        requires vacant { self.old.game ≡ None }
        requires sessions { AllDiffer (sessions_seated seats.now) }
        requires names { AllDiffer (names_of seats.now) }
        requires players { names_seated seats.now ≡ game.now.names }
        requires pairs { HasPairsFor game.now.terms seats.now }
        ensures replays { IfOk result (λ yes. IsTrue yes ↔ Replays game.now) }
        ensures restored { IfOk result (λ yes. IsTrue yes → Some self.new
            ≡ restored self.old serial game.now seats.now moment) }
        ensures vacant { IfOk result (λ yes. ¬ IsTrue yes → self.new ≡ self.old) }
        ensures err { OnErr result (self.new ≡ self.old) }
    {
        let Some(game) = resumed(alloc, self.number, serial, game, seats, moment)? else {
            return Ok(false);
        };
        let Ok(game) = Box::new(alloc, game) else {
            return Err(NoMemory);
        };
        drop(self.game.replace(game));
        Ok(true)
    }

    /// What is kept of the game, which was adjourned. It replays.
    pub fn shelve(&self, alloc: Global) -> Result<StoredGame, NoMemory>
        requires { IsAdjourned self.now }
        ensures { IfOk result (λ game. Some game ≡ shelved_at self.now) }
    {
        match &self.game {
            Some(game) => game.shelved(alloc),
            None => unreachable!(),
        }
    }

    /// Makes an act of a session at the game of that serial. The moment, in milliseconds, counts as no earlier than
    /// that of the last act. A refusal and running out of memory change nothing.
    pub fn act(
        &mut self,
        session: u32,
        moment: Moment,
        serial: u64,
        act: &DeskAct,
    ) -> Result<DeskReply, Fail>
        requires fits { FitsDeskAct act.now }
        ensures { Takes (desk_effect self.old session moment serial act.now) self.old self.new result }
    {
        let desk = self.number;
        let Some(game) = &mut self.game else {
            return self.elsewhere(act);
        };
        if game.serial() != serial {
            return self.elsewhere(act);
        }
        game.act(desk, session, moment, act)
    }

    /// The answer to an act that names a game which isn't at the desk.
    fn elsewhere(&self, act: &DeskAct) -> Result<DeskReply, Fail>
        ensures { Takes (missing_effect self.now act.now) self.now self.now result }
    {
        match act {
            DeskAct::Fetch => Err(Fail::Refused(Refusal::NotWatching)),
            DeskAct::Leave => Ok(DeskReply::Done),
            DeskAct::Watch => Err(Fail::Refused(Refusal::NoSuchGame)),
            DeskAct::Unwatch => Err(Fail::Refused(Refusal::NotWatching)),
            DeskAct::Show => Err(Fail::Refused(Refusal::NoSuchGame)),
            DeskAct::Remark { .. } => Err(Fail::Refused(Refusal::NoSuchGame)),
            _ => Err(Fail::Refused(Refusal::NotPlaying)),
        }
    }

    /// How the game ended; None where it runs and where the desk is vacant.
    pub fn ended(&self) -> Option<Ended>
        ensures { result ≡ ended_at self.now }
    {
        match &self.game {
            Some(game) => game.ended(),
            None => None,
        }
    }

    /// How many viewers the game has.
    pub fn viewers(&self) -> usize
        ensures { result ≡ viewer_count self.now }
    {
        match &self.game {
            Some(game) => game.viewers(),
            None => 0,
        }
    }

    /// Whether nobody looks on any more.
    pub fn is_left(&self) -> bool
        ensures { result ≡ (viewer_count self.now == 0) }
    {
        match &self.game {
            Some(game) => game.is_left(),
            None => true,
        }
    }

    /// The serial of the game; None exactly where the desk is vacant.
    pub fn serial(&self) -> Option<u64>
        ensures { result ≡ serial_of self.now }
    {
        match &self.game {
            Some(game) => Some(game.serial()),
            None => None,
        }
    }

    /// The items past the cursor of a session, none where it is no viewer.
    pub fn ahead(&self, session: u32) -> &[Item]
        ensures { result.now ≡ items_for self.now session }
    {
        match &self.game {
            Some(game) => game.ahead(session),
            None => &[],
        }
    }

    /// The board of that number; None where the game has no such board, and where the desk is vacant.
    pub fn board(&self, board: BoardNumber) -> Option<&GameBoard>
        ensures { option_copied result ≡ slice_get (boards_at self.now) (board_place board) }
    {
        match &self.game {
            Some(game) => game.boards().at(board),
            None => None,
        }
    }

    /// Copies of the items that an act would answer now, at whatever moment; none where it gives none.
    pub fn items_ahead(
        &self,
        alloc: Global,
        session: u32,
        serial: u64,
        act: &DeskAct,
    ) -> Result<ItemList, NoMemory>
        ensures { IfOk result (λ items. (moment : ℕ) → items
            ≡ items_told (desk_effect self.now session moment serial act.now).reply) }
    {
        let Some(game) = &self.game else {
            return Ok(ItemList::new(alloc));
        };
        if serial != game.serial() {
            return Ok(ItemList::new(alloc));
        }
        game.items_ahead(alloc, self.number, session, act)
    }

    /// Makes the desk vacant once its game has ended and nobody views it any more.
    pub fn clear(&mut self)
        requires over { IsSome (ended_at self.old) }
        requires unwatched { viewer_count self.old ≡ 0 }
        ensures { self.new ≡ record self.old { game = None } }
    {
        drop(self.game.take());
    }
}
