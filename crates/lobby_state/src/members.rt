//! The members of the hall, and how one is found.
ghost use Rattle.std.specs.Prelude.{◌≡◌, ◌<◌, ◌≤◌, [], ◌∷◌, ◌++◌, IfOk, None, OnErr, OnOk, Some, eqb, length, not, option_copied, slice_get};
ghost use Rattle.std.specs.Borrow.{sem};
ghost use Rattle.std.specs.List.{filter, find, position};
ghost use Rattle.fics_words.specs.Handle.{key_of};
ghost use Rattle.fics_words.specs.Seats.{seat_list};
ghost use Rattle.lobby_state.specs.Lobby.{has_handle, is_named, is_session, most_members};
ghost use Rattle.lobby_state.specs.Names.{AreNamedApart, with_rows};
ghost use Rattle.lobby_state.specs.Players.{change_players};
ghost use Rattle.tables.specs.Rows.{AreApart, change_first};

use crate::inbox::Inbox;
use crate::member::Member;
use crate::name_row::{NameRow, OfAnother, put_name};
use channel_feed::NameList;
use collections::Change;
use fics_words::{HandleKey, Seats};
use memory::NoMemory;
use std::alloc::Global;
use std::marker::Model;
use tables::{Keyed, Parted, Table};

/// The most members that the hall holds.
pub(crate) const MOST_MEMBERS: usize = 256;

/// The lines that wait for a member, as a part that is lent.
struct WaitingPart;

/// The list of those who can't tell a member anything, as a part that is lent.
struct CensorPart;

/// The list of those who can't play with a member, as a part that is lent.
struct NoplayPart;

impl Keyed<u32> for Member {
    ghost key_of = { λ member. member.session };

    fn key(&self) -> u32 {
        self.session
    }
}

impl Parted<Inbox, WaitingPart> for Member {
    ghost part = { λ member. member.waiting };

    ghost with_part = { λ member waiting. record member { waiting = waiting } };

    fn part_mut(&mut self) -> &mut Inbox {
        &mut self.waiting
    }
}

impl Parted<NameList, CensorPart> for Member {
    ghost part = { λ member. member.censor };

    ghost with_part = { λ member censor. record member { censor = censor } };

    fn part_mut(&mut self) -> &mut NameList {
        &mut self.censor
    }
}

impl Parted<NameList, NoplayPart> for Member {
    ghost part = { λ member. member.noplay };

    ghost with_part = { λ member noplay. record member { noplay = noplay } };

    fn part_mut(&mut self) -> &mut NameList {
        &mut self.noplay
    }
}

/// The members in the order in which they entered, at most 256, each found by its session or its handle, and beside
/// them their names in the order of their keys. Contracts see the list of the members.
#[derive(Drop)]
pub(crate) struct Members {
    rows: Table<u32, Member>,
    names: Table<HandleKey, NameRow>,
}

impl Model for Members {
    ghost use Rattle.std.specs.Prelude.{◌≡◌, ◌≤◌, List, [], length};
    ghost use Rattle.lobby_state.specs.declared.member.Member.{Member};
    ghost use Rattle.lobby_state.specs.Names.{AreNamedApart, with_rows};

    ghost Value = { List Member };

    ghost view = { λ members. members.rows };

    ghost invariant = { λ members. record {
      within : length members.rows ≤ 256;
      names : members.names ≡ with_rows [] members.rows;
      apart : AreNamedApart members.rows;
    } };
}

impl Members {
    ghost use Rattle.lobby_state.specs.Lent.{lends_censor, lends_noplay, lends_waiting};

    /// Nobody, with room for 256. It fails only when out of memory.
    pub(crate) fn new(alloc: Global) -> Result<Members, NoMemory>
        ensures { IfOk result (λ members. members ≡ []) }
    {
        Ok(Members {
            rows: Table::with_room(alloc, MOST_MEMBERS)?,
            names: Table::with_room(alloc, MOST_MEMBERS)?,
        })
    }

    /// How many there are, which is at most 256.
    pub(crate) fn len(&self) -> usize
        ensures value { result ≡ length self.now }
        ensures within { length self.now ≤ MOST_MEMBERS }
    {
        self.rows.len()
    }

    /// The members, in the order in which they entered. No two have one session.
    pub(crate) fn as_slice(&self) -> &[Member]
        ensures members { result.now ≡ self.now }
        ensures apart { AreApart eqb (λ member. member.session) self.now }
    {
        self.rows.as_slice()
    }

    /// The names of the members, in the order of their keys.
    pub(crate) fn names(&self) -> &[NameRow]
        ensures { result.now ≡ with_rows [] self.now }
    {
        self.names.as_slice()
    }

    /// The member of the session, if it has entered.
    pub(crate) fn get(&self, session: u32) -> Option<&Member>
        ensures { option_copied result ≡ find (is_session session) self.now }
    {
        self.rows.get(session)
    }

    /// The member that the handle names, if there is one and it isn't going.
    pub(crate) fn named(&self, key: HandleKey) -> Option<&Member>
        ensures { option_copied result ≡ find (is_named key) self.now }
    {
        let Some(member) = self.with_handle(key) else {
            return None;
        };
        if member.going {
            return None;
        }
        Some(member)
    }

    /// The member that has the handle with this key, going or not. No two have one handle.
    pub(crate) fn with_handle(&self, key: HandleKey) -> Option<&Member>
        ensures member { option_copied result ≡ find (has_handle key) self.now }
        ensures apart { AreNamedApart self.now }
    {
        // The slice is what says that no two sessions are equal.
        let _rows = self.rows.as_slice();
        match self.names.get(key) {
            Some(row) => self.rows.get(row.session),
            None => None,
        }
    }

    /// Where the member of the session stands, counted from 0, if it has entered.
    pub(crate) fn place(&self, session: u32) -> Option<usize>
        ensures { result ≡ position (is_session session) self.now }
    {
        self.rows.place(session)
    }

    /// Where the member that the handle names stands, counted from 0, if there is one and it isn't going.
    pub(crate) fn place_named(&self, key: HandleKey) -> Option<usize>
        ensures { result ≡ position (is_named key) self.now }
    {
        // The slice is what says that no two sessions are equal.
        let _rows = self.rows.as_slice();
        match self.named(key) {
            Some(member) => self.rows.place(member.session),
            None => None,
        }
    }

    /// The member at `place`.
    pub(crate) fn at(&self, place: usize) -> &Member
        requires { place < length self.now }
        ensures { slice_get self.now place ≡ Some result.now }
    {
        &self.rows.as_slice()[place]
    }

    /// Puts a member of a new session and a new handle behind the others. Running out of memory changes nothing.
    pub(crate) fn push(&mut self, member: Member) -> Result<(), NoMemory>
        requires room { length self.old < most_members }
        requires session { find (is_session member.session) self.old ≡ None }
        requires handle { find (has_handle (key_of member.name)) self.old ≡ None }
        ensures ok { OnOk result (self.new ≡ self.old ++ member ∷ []) }
        ensures err { OnErr result (self.new ≡ self.old) }
    {
        let session = member.session;
        let name = member.name;
        self.rows.push(member)?;
        if let Err(NoMemory) = put_name(&mut self.names, name, session) {
            self.rows.remove(session);
            return Err(NoMemory);
        }
        Ok(())
    }

    /// The session is gone. It takes no memory.
    pub(crate) fn remove(&mut self, session: u32)
        ensures { self.new ≡ filter (λ member. not (is_session session member)) self.old }
    {
        self.rows.remove(session);
        self.names.retain(&OfAnother(session));
    }

    /// Changes the member of the session, if it has entered. The change leaves its session and its name as they are.
    pub(crate) fn change<C: Change<Member>>(&mut self, session: u32, change: &C)
        requires sessions { (member : Member) → (C.changed change.now member).session ≡ member.session }
        requires names { (member : Member) → (C.changed change.now member).name ≡ member.name }
        ensures { self.new ≡ change_first (is_session session) (C.changed change.now) self.old }
    {
        self.rows.change(session, change);
    }

    /// The lines that wait for the member at `place`, to be changed.
    pub(crate) fn waiting_mut(&mut self, place: usize) -> &mut Inbox
        requires { place < length self.old }
        ensures* writes_back { sem 𝓛 (lends_waiting self.entry place result) }
        ensures value { (member : Member) → slice_get self.old place ≡ Some member → result.now ≡ member.waiting }
    {
        self.rows.part_mut::<Inbox, WaitingPart>(place)
    }

    /// The list of those who can't tell the member at `place` anything, to be changed.
    pub(crate) fn censor_mut(&mut self, place: usize) -> &mut NameList
        requires { place < length self.old }
        ensures* writes_back { sem 𝓛 (lends_censor self.entry place result) }
        ensures value { (member : Member) → slice_get self.old place ≡ Some member → result.now ≡ member.censor }
    {
        self.rows.part_mut::<NameList, CensorPart>(place)
    }

    /// The list of those who can't play with the member at `place`, to be changed.
    pub(crate) fn noplay_mut(&mut self, place: usize) -> &mut NameList
        requires { place < length self.old }
        ensures* writes_back { sem 𝓛 (lends_noplay self.entry place result) }
        ensures value { (member : Member) → slice_get self.old place ≡ Some member → result.now ≡ member.noplay }
    {
        self.rows.part_mut::<NameList, NoplayPart>(place)
    }
}

/// Changes the members who are players of a game. The change leaves their sessions and names as they are.
pub(crate) fn change_players<C: Change<Member>>(members: &mut Members, seats: &Seats, change: &C)
    requires sessions { (member : Member) → (C.changed change.now member).session ≡ member.session }
    requires names { (member : Member) → (C.changed change.now member).name ≡ member.name }
    ensures { members.new ≡ change_players (C.changed change.now) (seat_list seats.now) members.old }
{
    members.change(seats.first.white.session, change);
    members.change(seats.first.black.session, change);
    let Some(second) = &seats.second else {
        return;
    };
    members.change(second.white.session, change);
    members.change(second.black.session, change);
}
