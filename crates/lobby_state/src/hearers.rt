//! A line that goes to all others in a channel: they are found by the rows of the channels, and each by its session.
//! One call stands on another for each of them, and for no row of another channel.
ghost use Rattle.std.specs.Prelude.{◌≡◌, ◌≤◌, IfOk, OnErr, OnOk, length};
ghost use Rattle.channel_feed.specs.Channels.{is_same};
ghost use Rattle.lobby_state.specs.Broadcast.{broadcast, heard};
ghost use Rattle.tables.specs.Rows.{AreApart, change_first};
ghost use Rattle.lobby_state.specs.Hearers.{from_next, has_room, is_other, less_one_line};
ghost use Rattle.lobby_state.specs.Lobby.{is_session};
ghost use Rattle.lobby_state.specs.TellChannel.{hears_channel};

use crate::members::Members;
use channel_feed::{Channels, Membership};
use fics_words::Line;
use memory::NoMemory;

/// Those in a channel, but for one session.
#[derive(Clone, Copy)]
pub(crate) struct Others {
    pub(crate) session: u32,
    pub(crate) channel: u8,
}

impl Others {
    /// Whether the row puts one of them into the channel.
    fn has(&self, row: &Membership) -> bool
        ensures { result ≡ is_other self.now.session self.now.channel row.now }
    {
        row.who != self.session && row.channel == self.channel
    }
}

/// Puts a copy of the line behind those that wait for each of these members for whom fewer than 512 wait, and answers
/// how many members that are. Running out of memory changes nothing.
pub(crate) fn tell_others(
    members: &mut Members,
    channels: &Channels,
    others: Others,
    line: &Line,
) -> Result<u16, NoMemory>
    ensures told { IfOk result (λ told.
        told ≡ heard (hears_channel channels.now others.session others.channel) members.old) }
    ensures ok { OnOk result (members.new
        ≡ broadcast (hears_channel channels.now others.session others.channel) line.now members.old) }
    ensures err { OnErr result (members.new ≡ members.old) }
{
    // The length is what says that at most 256 hear it.
    let _len = members.len();
    let told = tell_by_rows(members, channels.rows(), others, line)?;
    Ok(told as u16)
}

/// The same by these rows of the channels. Where memory runs out behind a member, the member's copy is taken back.
fn tell_by_rows(
    members: &mut Members,
    rows: &[Membership],
    others: Others,
    line: &Line,
) -> Result<usize, NoMemory>
    requires { AreApart is_same (λ row. row) rows.now }
    ensures told { IfOk result (λ told.
        told ≡ heard (hears_channel rows.now others.session others.channel) members.old) }
    ensures few { IfOk result (λ told. told ≤ length rows.now) }
    ensures ok { OnOk result (members.new
        ≡ broadcast (hears_channel rows.now others.session others.channel) line.now members.old) }
    ensures err { OnErr result (members.new ≡ members.old) }
{
    // The slice is what says that no two sessions are equal.
    let _all = members.as_slice();
    let Some((row, rest)) = from_next(rows, others).split_first() else {
        return Ok(0);
    };
    let is_told = tell_one(members, row.who, line)?;
    match tell_by_rows(members, rest, others, line) {
        Ok(told) => Ok(if is_told { told + 1 } else { told }),
        Err(NoMemory) => {
            if is_told {
                take_back(members, row.who);
            }
            Err(NoMemory)
        }
    }
}

/// The rows from the first one on that puts one of these into the channel.
fn from_next<'a>(rows: &'a [Membership], others: Others) -> &'a [Membership]
    ensures { result.now ≡ from_next others.session others.channel rows.now }
{
    let mut left = rows;
    while let Some((row, rest)) = left.split_first() {
        if others.has(row) {
            return left;
        }
        left = rest;
    }
    left
}

/// Puts a copy of the line behind those that wait for the member of the session, where it is one and fewer than 512 do,
/// and answers whether it did. Running out of memory changes nothing.
fn tell_one(members: &mut Members, session: u32, line: &Line) -> Result<bool, NoMemory>
    ensures told { IfOk result (λ is_told. is_told ≡ has_room session members.old) }
    ensures ok { OnOk result (members.new ≡ broadcast (is_session session) line.now members.old) }
    ensures err { OnErr result (members.new ≡ members.old) }
{
    // The slice is what says that no two sessions are equal.
    let _all = members.as_slice();
    let Some(place) = members.place(session) else {
        return Ok(false);
    };
    if members.at(place).is_full() {
        return Ok(false);
    }
    let copy = line.duplicate()?;
    members.waiting_mut(place).push(copy)?;
    Ok(true)
}

/// Takes back the line that was put last for the member of the session.
fn take_back(members: &mut Members, session: u32)
    ensures { members.new ≡ change_first (is_session session) less_one_line members.old }
{
    if let Some(place) = members.place(session) {
        members.waiting_mut(place).take_back();
    }
}
