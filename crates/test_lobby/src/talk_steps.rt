//! Steps of what members say to others and want others to send, each with its expected answer.

ghost use Rattle.std.specs.Prelude.{◌≤◌, IfSome, length};

use crate::steps::{
    DONE, STRANGE, Step, acted, hall, is_as_expected, key_of, number_if_done, number_of,
};
use fics_words::{Fail, HandleKey, Line, Lines, Variable};
use lobby_state::{Lobby, LobbyAct, LobbyReply};
use memory::NoMemory;
use std::alloc::Global;
use test_steps::first_wrong;

/// How many heard what was said, or were listed.
#[derive(Clone, Copy, PartialEq, Eq)]
pub enum HowMany {
    Exactly(u16),
    /// It was refused, by the refusal of this number.
    Refused(u8),
    /// The answer is of another kind than the step has.
    Strange,
}

/// A step: the session that makes it, what it does, and what it has to answer; a number is that of the refusal.
#[derive(Clone, Copy)]
pub enum Talk {
    Tell(u32, [u8; 3], &'static [u8], u8),
    /// Is heard by so many.
    Shout(u32, &'static [u8], HowMany),
    /// Tells it so many times, and each time without a refusal.
    TellTimes(u32, [u8; 3], &'static [u8], u32),
    Set(u32, Variable, bool, u8),
    /// Joins a channel, or leaves it.
    Channel(u32, u8, bool, u8),
    /// Is heard by so many in the channel.
    TellChannel(u32, u8, &'static [u8], HowMany),
    /// So many are in the channel, the first of them with this handle.
    InChannel(u32, u8, HowMany, &'static [u8]),
    Decline(u32, Option<[u8; 3]>, u8),
    Withdraw(u32, Option<[u8; 3]>, u8),
    Other(Step),
}

/// The place of the first step that answers otherwise, if one does.
fn first_failing_talk(alloc: Global, lobby: &mut Lobby, steps: &[Talk]) -> Option<usize> {
    first_wrong!(steps, |step| answers(alloc, lobby, step))
}

/// The same at a new lobby.
pub fn first_failing_talk_anew(alloc: Global, steps: &[Talk]) -> Result<Option<usize>, NoMemory> {
    let mut lobby = hall(alloc)?;
    Ok(first_failing_talk(alloc, &mut lobby, steps))
}

pub fn answers(alloc: Global, lobby: &mut Lobby, step: &Talk) -> bool {
    match step {
        Talk::Tell(session, to, text, number) => {
            telling(alloc, lobby, *session, to, text) == *number
        }
        Talk::Shout(session, text, heard) => shouting(alloc, lobby, *session, text) == *heard,
        Talk::Set(session, which, on, number) => setting(lobby, *session, *which, *on) == *number,
        Talk::Channel(session, channel, on, number) => {
            joining(lobby, *session, *channel, *on) == *number
        }
        Talk::TellTimes(session, to, text, times) => {
            tells_times(alloc, lobby, *session, to, text, *times)
        }
        Talk::TellChannel(session, channel, text, heard) => {
            telling_channel(alloc, lobby, *session, *channel, text) == *heard
        }
        Talk::InChannel(session, channel, count, first) => {
            in_channel(lobby, *session, *channel, first) == *count
        }
        Talk::Decline(session, name, number) => declining(lobby, *session, *name) == *number,
        Talk::Withdraw(session, name, number) => withdrawing(lobby, *session, *name) == *number,
        Talk::Other(step) => is_as_expected(lobby, step),
    }
}

/// Tells the player with this handle something.
fn telling(alloc: Global, lobby: &mut Lobby, session: u32, to: &[u8], text: &[u8]) -> u8 {
    let Some(to) = key_of(to) else {
        return STRANGE;
    };
    let Some(text) = said(alloc, text) else {
        return STRANGE;
    };
    number_if_told_one(&acted(lobby, session, &LobbyAct::Tell { to, text }))
}

fn tells_times(
    alloc: Global,
    lobby: &mut Lobby,
    session: u32,
    to: &[u8],
    text: &[u8],
    times: u32,
) -> bool {
    for _ in 0..times {
        if telling(alloc, lobby, session, to, text) != DONE {
            return false;
        }
    }
    true
}

/// What is said, of 800 bytes at most.
pub fn said(alloc: Global, text: &[u8]) -> Option<Line>
    ensures { IfSome result (λ line. length line ≤ 800) }
{
    match Line::read(alloc, text) {
        Ok(Some(line)) if line.bytes().len() <= 800 => Some(line),
        _ => None,
    }
}

/// The number of an answer that one was told, or of a refusal.
pub fn number_if_told_one(answer: &Result<LobbyReply, Fail>) -> u8 {
    match answer {
        Ok(LobbyReply::Told(1)) => DONE,
        Ok(_) => STRANGE,
        Err(_) => number_of(answer),
    }
}

/// How many were told.
fn told(answer: &Result<LobbyReply, Fail>) -> HowMany {
    match answer {
        Ok(LobbyReply::Told(count)) => HowMany::Exactly(*count),
        Ok(_) => HowMany::Strange,
        Err(_) => HowMany::Refused(number_of(answer)),
    }
}

fn shouting(alloc: Global, lobby: &mut Lobby, session: u32, text: &[u8]) -> HowMany {
    match said(alloc, text) {
        Some(text) => told(&acted(lobby, session, &LobbyAct::Shout { text })),
        None => HowMany::Strange,
    }
}

/// Joins the channel, or leaves it.
fn joining(lobby: &mut Lobby, session: u32, channel: u8, on: bool) -> u8 {
    number_if_done(&acted(lobby, session, &LobbyAct::Channel { channel, on }))
}

fn telling_channel(
    alloc: Global,
    lobby: &mut Lobby,
    session: u32,
    channel: u8,
    text: &[u8],
) -> HowMany {
    match said(alloc, text) {
        Some(text) => told(&acted(lobby, session, &LobbyAct::TellChannel { channel, text })),
        None => HowMany::Strange,
    }
}

/// How many are in the channel, where the first has this handle.
fn in_channel(lobby: &mut Lobby, session: u32, channel: u8, first: &[u8]) -> HowMany {
    listed(
        &acted(lobby, session, &LobbyAct::InChannel { channel }),
        first,
    )
}

/// How many lines are answered, where the first is this one.
fn listed(answer: &Result<LobbyReply, Fail>, first: &[u8]) -> HowMany {
    match answer {
        Ok(LobbyReply::Lines(lines)) => count_from(&lines, first),
        Ok(_) => HowMany::Strange,
        Err(_) => HowMany::Refused(number_of(answer)),
    }
}

/// How many lines these are, where the first is this one.
fn count_from(lines: &Lines, first: &[u8]) -> HowMany {
    match lines.get(0) {
        None => HowMany::Exactly(0),
        Some(line) if line == first => HowMany::Exactly(lines.len().min(999) as u16),
        Some(_) => HowMany::Strange,
    }
}

fn setting(lobby: &mut Lobby, session: u32, which: Variable, on: bool) -> u8 {
    number_if_done(&acted(lobby, session, &LobbyAct::Var { which, on }))
}

/// The key of a handle, if there is one.
fn key_in(name: Option<[u8; 3]>) -> Option<HandleKey> {
    match name {
        Some(letters) => key_of(&letters),
        None => None,
    }
}

fn declining(lobby: &mut Lobby, session: u32, name: Option<[u8; 3]>) -> u8 {
    let name = key_in(name);
    number_if_done(&acted(lobby, session, &LobbyAct::Decline { name }))
}

fn withdrawing(lobby: &mut Lobby, session: u32, name: Option<[u8; 3]>) -> u8 {
    let name = key_in(name);
    number_if_done(&acted(lobby, session, &LobbyAct::Withdraw { name }))
}
