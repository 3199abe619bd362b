//! Steps of simuls, each with its expected answer.

use crate::partner_steps::partnering;
use crate::seek_steps::{playing, posts};
use crate::steps::{
    CHESS, DONE, STRANGE, Step, acted, challenging, entering, hall, is_as_expected, key_of,
    number_if_done, numbered, starts,
};
use chess_model::Terms;
use lobby_state::{Lobby, LobbyAct};
use memory::NoMemory;
use std::alloc::Global;
use test_steps::first_wrong;

/// A step: the session that makes it, what it does, and what it has to answer; a number is that of the refusal.
#[derive(Clone, Copy)]
pub enum Giving {
    /// Begins a simul, or ends it.
    Open(u32, u8),
    /// Goes to its next place.
    Next(u32, u8),
    /// Goes to its previous place.
    Previous(u32, u8),
    /// Goes to its place against this player.
    Board(u32, [u8; 3], u8),
    /// Posts a seek, which gets this number.
    Post(u32, Terms, u16, u8),
    /// Asks for the plan of taking this seek, and doesn't carry it out.
    AskSeek(u32, u16, u8),
    /// Asks this player to be its partner.
    Pair(u32, [u8; 3], u8),
    /// The 32 sessions from 1 on enter, and each plays the giver, who has this handle.
    Plays32(u32, [u8; 3]),
    /// A step of another kind.
    Other(Step),
}

/// The place of the first step that answers otherwise, if one does.
fn first_failing_simul(lobby: &mut Lobby, steps: &[Giving]) -> Option<usize> {
    first_wrong!(steps, |step| answers(lobby, step))
}

/// The same at a new lobby.
pub fn first_failing_simul_anew(
    alloc: Global,
    steps: &[Giving],
) -> Result<Option<usize>, NoMemory> {
    let mut lobby = hall(alloc)?;
    Ok(first_failing_simul(&mut lobby, steps))
}

fn answers(lobby: &mut Lobby, step: &Giving) -> bool {
    match step {
        Giving::Open(session, number) => moving(lobby, *session, &LobbyAct::SimOpen) == *number,
        Giving::Next(session, number) => moving(lobby, *session, &LobbyAct::SimNext) == *number,
        Giving::Previous(session, number) => {
            moving(lobby, *session, &LobbyAct::SimPrev) == *number
        }
        Giving::Board(session, name, number) => going(lobby, *session, name) == *number,
        Giving::Post(session, terms, number, refusal) => {
            posts(lobby, *session, *terms, *number, *refusal)
        }
        Giving::AskSeek(session, number, refusal) => {
            playing(lobby, *session, *number) == *refusal
        }
        Giving::Pair(session, name, number) => partnering(lobby, *session, name) == *number,
        Giving::Plays32(session, name) => plays_32(lobby, *session, name),
        Giving::Other(step) => is_as_expected(lobby, step),
    }
}

/// Whether 32 others enter, and each plays the giver.
fn plays_32(lobby: &mut Lobby, giver: u32, letters: &[u8]) -> bool {
    for n in 1..33u8 {
        if !plays_giver(lobby, giver, letters, n) {
            return false;
        }
    }
    true
}

/// Whether a session enters, challenges the giver and plays it at the desk of its number.
fn plays_giver(lobby: &mut Lobby, giver: u32, letters: &[u8], n: u8) -> bool {
    let session = u32::from(n);
    entering(lobby, session, &numbered(session)) == DONE
        && challenging(lobby, session, letters, CHESS) == DONE
        && starts(lobby, giver, n, u64::from(n), giver)
}

/// An act that names nobody: the number of its refusal.
fn moving(lobby: &mut Lobby, session: u32, act: &LobbyAct) -> u8 {
    match act {
        LobbyAct::SimOpen => number_if_done(&acted(lobby, session, &LobbyAct::SimOpen)),
        LobbyAct::SimNext => number_if_done(&acted(lobby, session, &LobbyAct::SimNext)),
        LobbyAct::SimPrev => number_if_done(&acted(lobby, session, &LobbyAct::SimPrev)),
        _ => STRANGE,
    }
}

/// Goes to the place against the player with this handle.
fn going(lobby: &mut Lobby, session: u32, letters: &[u8]) -> u8 {
    match key_of(letters) {
        Some(name) => number_if_done(&acted(lobby, session, &LobbyAct::GoBoard { name })),
        None => STRANGE,
    }
}
