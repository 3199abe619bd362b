//! A line that goes to all members whom a test names.
ghost use Rattle.std.specs.Prelude.{◌≡◌, ◌+◌, ◌<◌, ◌≤◌, ◌++◌, IfOk, OnErr, OnOk, Some, drop, length, slice_get, take};
ghost use Rattle.lobby_state.specs.Broadcast.{broadcast, heard, hears, hearing};
ghost use Rattle.lobby_state.specs.Lobby.{is_session};
ghost use Rattle.lobby_state.specs.Said.{IsText, IsWording, spoken_line};
ghost use Rattle.lobby_state.specs.declared.member.Member.{Member};
ghost use Rattle.tables.specs.Rows.{change_at};

use crate::member::Member;
use crate::members::{MOST_MEMBERS, Members};
use crate::roster::Roster;
use crate::said::said_line;
use collections::Predicate;
use fics_words::{Handle, Line};
use memory::NoMemory;
use std::alloc::Global;

impl Roster {
    /// Says something to each member whom the test names and for whom fewer than 512 lines wait: who says it, how it is
    /// said, and its text. It answers how many members that are. Running out of memory changes nothing.
    pub(crate) fn say<P: Predicate<Member>>(
        &mut self,
        test: &P,
        name: Handle,
        wording: &[u8],
        text: &[u8],
    ) -> Result<u16, NoMemory>
        requires wording { IsWording wording.now }
        requires text { IsText text.now }
        ensures told { IfOk result (λ told. told ≡ heard (P.passes test.now) self.old.members) }
        ensures ok { OnOk result (self.new ≡ record self.old {
          members = broadcast (P.passes test.now) (spoken_line name wording.now text.now) self.old.members;
        }) }
        ensures err { OnErr result (self.new ≡ self.old) }
    {
        let line = said_line(self.alloc, name, wording, text)?;
        broadcast(&mut self.members, test, &line)
    }

    /// Says something to the member of this session, where it is one and fewer than 512 lines wait for it: who says it,
    /// how it is said, and its text. Running out of memory changes nothing.
    pub(crate) fn say_to(
        &mut self,
        to: u32,
        name: Handle,
        wording: &[u8],
        text: &[u8],
    ) -> Result<(), NoMemory>
        requires wording { IsWording wording.now }
        requires text { IsText text.now }
        ensures ok { OnOk result (self.new ≡ record self.old {
          members = broadcast (is_session to) (spoken_line name wording.now text.now) self.old.members;
        }) }
        ensures err { OnErr result (self.new ≡ self.old) }
    {
        let line = said_line(self.alloc, name, wording, text)?;
        tell_session(&mut self.members, to, line)
    }
}

/// Puts the line behind those that wait for the member of the session, where it is one and fewer than 512 do. Running
/// out of memory changes nothing.
pub(crate) fn tell_session(members: &mut Members, session: u32, line: Line) -> Result<(), NoMemory>
    ensures ok { OnOk result (members.new ≡ broadcast (is_session session) line members.old) }
    ensures err { OnErr result (members.new ≡ members.old) }
{
    // The slice is what says that no two sessions are equal.
    let _rows = members.as_slice();
    let Some(place) = members.place(session) else {
        return Ok(());
    };
    members.waiting_mut(place).push(line)?;
    Ok(())
}

/// Puts a copy of the line behind those that wait for each member whom the test names and for whom fewer than 512
/// wait, and answers how many members that are. Running out of memory changes nothing.
pub(crate) fn broadcast<P: Predicate<Member>>(
    members: &mut Members,
    test: &P,
    line: &Line,
) -> Result<u16, NoMemory>
    ensures told { IfOk result (λ told. told ≡ heard (P.passes test.now) members.old) }
    ensures ok { OnOk result (members.new ≡ broadcast (P.passes test.now) line.now members.old) }
    ensures err { OnErr result (members.new ≡ members.old) }
{
    let told = tell_from(members, 0, test, line)?;
    Ok(told as u16)
}

/// Tells the members from this place on. Where memory runs out behind a member, the member's copy is taken back.
fn tell_from<P: Predicate<Member>>(
    members: &mut Members,
    place: usize,
    test: &P,
    line: &Line,
) -> Result<usize, NoMemory>
    requires { place ≤ length members.old }
    ensures told { IfOk result (λ told. told ≡ heard (P.passes test.now) (drop place members.old)) }
    ensures few { IfOk result (λ told. place + told ≤ length members.old) }
    ensures most { length members.old ≤ MOST_MEMBERS }
    ensures ok { OnOk result (members.new
        ≡ take place members.old ++ broadcast (P.passes test.now) line.now (drop place members.old)) }
    ensures err { OnErr result (members.new ≡ members.old) }
{
    if place == members.len() {
        return Ok(0);
    }
    let is_told = tell(members, place, test, line)?;
    match tell_from(members, place + 1, test, line) {
        Ok(others) => Ok(if is_told { others + 1 } else { others }),
        Err(NoMemory) => {
            if is_told {
                members.waiting_mut(place).take_back();
            }
            Err(NoMemory)
        }
    }
}

/// Tells the member at this place, where the test names it and fewer than 512 lines wait for it, and answers whether it
/// did.
fn tell<P: Predicate<Member>>(
    members: &mut Members,
    place: usize,
    test: &P,
    line: &Line,
) -> Result<bool, NoMemory>
    requires { place < length members.old }
    ensures told { IfOk result (λ is_told.
        (member : Member) → slice_get members.old place ≡ Some member → is_told ≡ hears (P.passes test.now) member) }
    ensures many { length members.new ≡ length members.old }
    ensures ok { OnOk result (members.new ≡ change_at place (hearing (P.passes test.now) line.now) members.old) }
    ensures err { OnErr result (members.new ≡ members.old) }
{
    if !hears(members.at(place), test) {
        return Ok(false);
    }
    let copy = line.duplicate()?;
    members.waiting_mut(place).push(copy)?;
    Ok(true)
}

/// Whether the test names the member, and fewer than 512 lines wait for it.
fn hears<P: Predicate<Member>>(member: &Member, test: &P) -> bool
    ensures { result ≡ hears (P.passes test.now) member.now }
{
    test.passes(member) && !member.is_full()
}
