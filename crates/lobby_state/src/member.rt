//! Somebody who is in the hall, and what waits for one.
ghost use Rattle.std.specs.Prelude.{◌≡◌, OnOk, OnErr};
ghost use Rattle.std.specs.List.{find};
ghost use Rattle.tables.specs.Rows.{change_first};
ghost use Rattle.lobby_state.specs.Enter.{new_member};
ghost use Rattle.lobby_state.specs.Fetch.{member_emptied};
ghost use Rattle.lobby_state.specs.Lobby.{is_session, is_named, gives, has_place, is_busy, lines_in};
ghost use Rattle.lobby_state.specs.Match.{is_queue_full, member_with_line};
ghost use Rattle.lobby_state.specs.Pairing.{is_crowded};

use crate::inbox::Inbox;
use crate::members::Members;
use crate::wants::Wants;
use channel_feed::NameList;
use collections::Listed;
use fics_words::{Handle, HandleKey, Line};
use memory::NoMemory;
use simul_control::Places;
use std::alloc::Global;

/// Somebody who is in the hall.
#[derive(Drop)]
pub struct Member {
    pub session: u32,
    pub name: Handle,
    /// Whether the member leaves, and can't be named any more.
    pub going: bool,
    pub places: Places,
    /// What the member wants others to send.
    pub wants: Wants,
    /// Those who can't tell the member anything, nor play with it.
    pub censor: NameList,
    /// Those who can't play with the member.
    pub noplay: NameList,
    /// The lines that wait for the member, the oldest first.
    pub waiting: Inbox,
}

impl Member {
    /// One who comes in.
    pub(crate) fn new(alloc: Global, session: u32, name: Handle) -> Member
        ensures { result ≡ new_member session name }
    {
        Member {
            session,
            name,
            going: false,
            places: Places::none(),
            wants: Wants {
                matches: true,
                shouts: true,
                seeks: true,
            },
            censor: NameList::new(alloc),
            noplay: NameList::new(alloc),
            waiting: Inbox::new(alloc),
        }
    }

    /// Whether the member has a place.
    pub(crate) fn has_place(&self) -> bool
        ensures { result ≡ has_place self.now }
    {
        self.places.len() != 0
    }

    /// Whether the member gives a simul.
    pub(crate) fn gives(&self) -> bool
        ensures { result ≡ gives self.now }
    {
        self.places.giving()
    }

    /// Whether the member has a place and gives no simul, so that it can begin no game.
    pub(crate) fn is_busy(&self) -> bool
        ensures { result ≡ is_busy self.now }
    {
        self.has_place() && !self.gives()
    }

    /// Whether the member has 32 places, so that it can't be seated at one more board.
    pub(crate) fn is_crowded(&self) -> bool
        ensures { result ≡ is_crowded self.now }
    {
        self.places.is_full()
    }

    /// Whether no more lines can wait for the member.
    pub(crate) fn is_full(&self) -> bool
        ensures { result ≡ is_queue_full self.now }
    {
        self.waiting.is_full()
    }
}

/// Puts a line behind those that wait for the member that the key names, where fewer than 512 do.
pub(crate) fn add_line(members: &mut Members, to: HandleKey, line: Line) -> Result<(), NoMemory>
    ensures ok { OnOk result (members.new ≡ change_first (is_named to) (member_with_line line) members.old) }
    ensures err { OnErr result (members.new ≡ members.old) }
{
    let Some(place) = members.place_named(to) else {
        return Ok(());
    };
    members.waiting_mut(place).push(line)?;
    Ok(())
}

/// Takes the lines that wait for the session.
pub(crate) fn take_lines(alloc: Global, members: &mut Members, session: u32) -> Listed<Line>
    ensures lines { result ≡ lines_in (find (is_session session) members.old) }
    ensures emptied { members.new ≡ change_first (is_session session) member_emptied members.old }
{
    let Some(place) = members.place(session) else {
        return Listed::new(alloc);
    };
    members.waiting_mut(place).take_all()
}
