//! Steps of partners, each with its expected answer.

use crate::steps::{DONE, Step, acted, hall, is_as_expected, number_of};
use crate::talk_steps::{number_if_told_one, said};
use fics_words::{Fail, Handle};
use lobby_state::{Lobby, LobbyAct, LobbyReply};
use memory::NoMemory;
use std::alloc::Global;
use test_steps::first_wrong;

/// The number that stands for an answer of another kind than the step has.
const STRANGE: u8 = 255;

/// The number that stands for a request that was put, and that links nobody yet.
pub const ASKED: u8 = 254;

/// A step: the session that makes it, what it does, and what it has to answer; a number is that of the refusal.
#[derive(Clone, Copy)]
pub enum Pairing {
    /// Asks this player.
    Ask(u32, [u8; 3], u8),
    /// Asks this player so many times, and each time it is put.
    AskTimes(u32, [u8; 3], u32),
    /// Parts with its partner.
    Part(u32, u8),
    /// Says this to its partner.
    Ptell(u32, &'static [u8], u8),
    /// A step of another kind.
    Other(Step),
}

/// The place of the first step that answers otherwise, if one does.
fn first_failing_pairing(alloc: Global, lobby: &mut Lobby, steps: &[Pairing]) -> Option<usize> {
    first_wrong!(steps, |step| answers(alloc, lobby, step))
}

/// The same at a new lobby.
pub fn first_failing_pairing_anew(
    alloc: Global,
    steps: &[Pairing],
) -> Result<Option<usize>, NoMemory> {
    let mut lobby = hall(alloc)?;
    Ok(first_failing_pairing(alloc, &mut lobby, steps))
}

fn answers(alloc: Global, lobby: &mut Lobby, step: &Pairing) -> bool {
    match step {
        Pairing::Ask(session, name, number) => partnering(lobby, *session, name) == *number,
        Pairing::AskTimes(session, name, times) => asks_times(lobby, *session, name, *times),
        Pairing::Part(session, number) => parting(lobby, *session) == *number,
        Pairing::Ptell(session, text, number) => {
            confiding(alloc, lobby, *session, text) == *number
        }
        Pairing::Other(step) => is_as_expected(lobby, step),
    }
}

/// Asks the player with this handle to be the session's partner.
pub fn partnering(lobby: &mut Lobby, session: u32, letters: &[u8]) -> u8 {
    let Some(name) = Handle::read(letters) else {
        return STRANGE;
    };
    let act = LobbyAct::Partner {
        name: Some(name.key()),
    };
    with_kind(&acted(lobby, session, &act))
}

fn asks_times(lobby: &mut Lobby, session: u32, letters: &[u8], times: u32) -> bool {
    for _ in 0..times {
        if partnering(lobby, session, letters) != ASKED {
            return false;
        }
    }
    true
}

fn parting(lobby: &mut Lobby, session: u32) -> u8 {
    with_kind(&acted(lobby, session, &LobbyAct::Partner { name: None }))
}

/// The number of a refusal, or that of the kind of the reply.
fn with_kind(answer: &Result<LobbyReply, Fail>) -> u8 {
    match answer {
        Ok(LobbyReply::Asked) => ASKED,
        Ok(LobbyReply::Done) => DONE,
        Ok(_) => STRANGE,
        Err(_) => number_of(answer),
    }
}

fn confiding(alloc: Global, lobby: &mut Lobby, session: u32, text: &[u8]) -> u8 {
    let Some(text) = said(alloc, text) else {
        return STRANGE;
    };
    number_if_told_one(&acted(lobby, session, &LobbyAct::Ptell { text }))
}
