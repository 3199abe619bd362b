//! Resumed: the plans of a Resume are carried out, and the shelf's share of a Clear.
ghost use Rattle.std.specs.Prelude.{◌≡◌, ◌+◌, ◌<◌, ◌^◌, All, IfSome, length, true};
ghost use Rattle.game_records.specs.Replays.{Replays};
ghost use Rattle.lobby_shelf.specs.Numbers.{is_used};
ghost use Rattle.lobby_shelf.specs.Shelf.{most_stored, removal_order, taken_off};
ghost use Rattle.tables.specs.Rows.{change_first};
ghost use Rattle.lobby_state.specs.declared.reserve.Ready.TheVariants.{Resuming};
ghost use Rattle.lobby_state.specs.Lobby.{is_session};
ghost use Rattle.lobby_state.specs.Plans.{put_away};
ghost use Rattle.lobby_state.specs.Reserve.{HasRoomFor, asking_for, shelved_in, shelving_for};
ghost use Rattle.lobby_state.specs.Resumed.{asked_of, with_lines};
ghost use Rattle.lobby_state.specs.WellFormed.{HasSeats};

use crate::inbox::Inbox;
use crate::members::Members;
use crate::reserve::Ready;
use crate::roster::Roster;
use fics_words::DeskNumber;

impl Roster {
    /// The desk is free, nobody has a place there any more, and its game is on the shelf where it was adjourned.
    pub(crate) fn put_away(&mut self, desk: DeskNumber, ready: Ready)
        requires seats { All (HasSeats self.old.games) self.old.members }
        requires is { ready ≡ shelving_for self.old.shelf (shelved_in ready) }
        requires room { HasRoomFor self.old ready }
        requires count { self.old.shelf.made + 1 < 2 ^ 64 }
        requires place { IfSome (shelved_in ready) (λ _. length self.old.shelf.games < most_stored) }
        requires replays { IfSome (shelved_in ready) Replays }
        ensures { self.new ≡ put_away self.old desk (shelved_in ready) }
    {
        self.clear(desk);
        if let Ready::Shelving(saving) = ready {
            self.shelf.shelve(saving);
        }
    }

    /// The game of that number has left the shelf, with the requests for it.
    pub(crate) fn take_off(&mut self, number: u64, ready: Ready)
        requires is { ready ≡ Resuming (removal_order self.old.shelf number) }
        requires room { HasRoomFor self.old ready }
        requires count { self.old.shelf.made + 1 < 2 ^ 64 }
        ensures { self.new ≡ record self.old { shelf = taken_off self.old.shelf number } }
    {
        let Ready::Resuming(order) = ready else {
            unreachable!()
        };
        self.shelf.take_off(number, order);
    }

    /// The request of the one stands, and the other is told.
    pub(crate) fn ask(&mut self, from: u32, to: u32, number: u64, ready: Ready)
        requires is { ready ≡ asking_for self.old from to number }
        requires room { HasRoomFor self.old ready }
        requires lies { is_used self.old.shelf.games number ≡ true }
        ensures { self.new ≡ asked_of self.old from to number }
    {
        let Ready::Asking { request, lines } = ready else {
            unreachable!()
        };
        self.shelf.ask(from, number, request);
        put_lines(&mut self.members, to, lines);
    }
}

/// These lines wait for the session in place of those that did.
fn put_lines(members: &mut Members, session: u32, lines: Inbox)
    ensures { members.new ≡ change_first (is_session session) (with_lines lines) members.old }
{
    let Some(place) = members.place(session) else {
        return;
    };
    let waiting = members.waiting_mut(place);
    *waiting = lines;
}
