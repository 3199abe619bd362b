//! What a plan needs of memory, made ready beside the lobby.
ghost use Rattle.std.specs.Prelude.{◌≡◌, ◌+◌, ◌<◌, ◌^◌, IfOk, IfSome};
ghost use Rattle.channel_feed.specs.Waiting.{with_line};
ghost use Rattle.game_records.specs.Replays.{Replays};
ghost use Rattle.lobby_state.specs.Lobby.{waiting_of};
ghost use Rattle.lobby_state.specs.Planned.{IsPlanned};
ghost use Rattle.lobby_state.specs.Reserve.{CanShelve, HasRoomFor, asking_for, ready_for, shelving_for};
ghost use Rattle.lobby_state.specs.Resumed.{ask_line, resume_words};
ghost use Rattle.lobby_state.specs.WellFormed.{IsWellFormed};

use crate::acts::Plan;
use crate::inbox::Inbox;
use crate::roster::Roster;
use crate::said::joined;
use fics_words::Line;
use lobby_shelf::{Asking, GameSaving, Saving, StoredGame};
use memory::NoMemory;
use std::alloc::Global;

/// What a plan needs of memory, so that its share in the lobby takes none.
#[derive(Drop)]
pub enum Ready {
    /// A start needs nothing, nor does a Clear of a game that isn't adjourned.
    Nothing,
    /// The game that a Clear puts on the shelf, with its save order.
    Shelving(GameSaving),
    /// The save order for the game that leaves the shelf.
    Resuming(Saving),
    /// The request of an Ask, and the lines that wait for the other with the one that it sends.
    Asking { request: Asking, lines: Inbox },
}

impl Roster {
    /// Makes ready what the plan needs. It fails only when out of memory.
    pub(crate) fn reserve(
        &self,
        plan: &Plan,
        shelved: Option<StoredGame>,
    ) -> Result<Ready, NoMemory>
        requires formed { IsWellFormed self.now }
        requires planned { IsPlanned self.now plan.now }
        requires shelving { CanShelve self.now plan.now shelved }
        ensures ready { IfOk result (λ ready. ready ≡ ready_for self.now plan.now shelved) }
        ensures room { IfOk result (HasRoomFor self.now) }
    {
        match plan {
            Plan::Start { .. } => Ok(Ready::Nothing),
            Plan::Clear { .. } => self.shelving(shelved),
            Plan::Resume { number, .. } => {
                Ok(Ready::Resuming(self.shelf.saving_of_removal(*number)?))
            }
            Plan::Ask { from, to, number } => self.asking(*from, *to, *number),
        }
    }

    /// An order for the game that goes on the shelf, if one does.
    fn shelving(&self, shelved: Option<StoredGame>) -> Result<Ready, NoMemory>
        requires count { self.now.shelf.made + 1 < 2 ^ 64 }
        requires replays { IfSome shelved Replays }
        ensures ready { IfOk result (λ ready. ready ≡ shelving_for self.now.shelf shelved) }
        ensures room { IfOk result (HasRoomFor self.now) }
    {
        match shelved {
            None => Ok(Ready::Nothing),
            Some(game) => Ok(Ready::Shelving(self.shelf.saving_of_game(game)?)),
        }
    }

    /// The request of an Ask, and the lines that wait for the other with the one that it sends.
    fn asking(&self, from: u32, to: u32, number: u64) -> Result<Ready, NoMemory>
        ensures ready { IfOk result (λ ready. ready ≡ asking_for self.now from to number) }
        ensures room { IfOk result (HasRoomFor self.now) }
    {
        let request = self.shelf.asking(from, number)?;
        let lines = self.lines_with(from, to)?;
        Ok(Ready::Asking { request, lines })
    }

    /// The lines that wait for the one, with the line by which the other asks it.
    fn lines_with(&self, from: u32, to: u32) -> Result<Inbox, NoMemory>
        ensures { IfOk result (λ lines. lines ≡ with_line (ask_line self.now from) (waiting_of self.now to)) }
    {
        let mut lines = self.inbox_twin(to)?;
        lines.push(self.ask_line(from)?)?;
        Ok(lines)
    }

    /// An inbox with the lines that wait for the session; none where it isn't a member.
    fn inbox_twin(&self, session: u32) -> Result<Inbox, NoMemory>
        ensures { IfOk result (λ lines. lines ≡ waiting_of self.now session) }
    {
        match self.member(session) {
            Some(member) => member.waiting.twin(),
            None => Ok(Inbox::new(self.alloc)),
        }
    }

    /// The line by which the session asks to resume.
    fn ask_line(&self, from: u32) -> Result<Line, NoMemory>
        ensures { IfOk result (λ line. line ≡ ask_line self.now from) }
    {
        let text = ask_text(self.alloc, self.letters_of(from))?;
        Ok(Line::from_bytes(text))
    }
}

/// The bytes of that line, for a member with these letters.
fn ask_text(alloc: Global, letters: &[u8]) -> Result<Vec<u8>, NoMemory>
    ensures { IfOk result (λ text. text.items ≡ resume_words letters.now) }
{
    joined(alloc, letters, b" asks to resume.", b"")
}
