//! Steps of lists of names and of the lists that members ask for, each with its expected answer.

use crate::seek_steps::tells;
use crate::steps::{DONE, STRANGE, acted, hall, key_of, number_if_done, number_of, numbered};
use crate::talk_steps::{Talk, answers as talks};
use lobby_state::{Lobby, LobbyAct, WhichList};
use memory::NoMemory;
use std::alloc::Global;
use test_steps::first_wrong;

/// A step: the session that makes it, what it does, and what it has to answer; a number is that of the refusal.
#[derive(Clone, Copy)]
pub enum Keeping {
    /// Puts a name on the list, or takes it off.
    Name(u32, WhichList, [u8; 3], bool, u8),
    /// Puts so many names on the list, each of them a number's.
    Numbered(u32, WhichList, u32),
    /// The challenges are these lines.
    Pending(u32, &'static [&'static [u8]]),
    /// The games are these lines.
    Games(u32, &'static [&'static [u8]]),
    /// Asks for both lists without being a member.
    Outside(u32),
    /// A step of another kind.
    Other(Talk),
}

/// The place of the first step that answers otherwise, if one does.
fn first_failing_list(alloc: Global, lobby: &mut Lobby, steps: &[Keeping]) -> Option<usize> {
    first_wrong!(steps, |step| answers(alloc, lobby, step))
}

/// The same at a new lobby.
pub fn first_failing_list_anew(
    alloc: Global,
    steps: &[Keeping],
) -> Result<Option<usize>, NoMemory> {
    let mut lobby = hall(alloc)?;
    Ok(first_failing_list(alloc, &mut lobby, steps))
}

fn answers(alloc: Global, lobby: &mut Lobby, step: &Keeping) -> bool {
    match step {
        Keeping::Name(session, which, name, on, number) => {
            naming(lobby, *session, *which, name, *on) == *number
        }
        Keeping::Numbered(session, which, count) => {
            names_numbered(lobby, *session, *which, *count)
        }
        Keeping::Pending(session, rows) => tells(lobby, *session, &LobbyAct::Pending, rows),
        Keeping::Games(session, rows) => tells(lobby, *session, &LobbyAct::Games, rows),
        Keeping::Outside(session) => is_outside(lobby, *session),
        Keeping::Other(step) => talks(alloc, lobby, step),
    }
}

/// Puts a name on the list, or takes it off.
fn naming(lobby: &mut Lobby, session: u32, which: WhichList, letters: &[u8], on: bool) -> u8 {
    let Some(name) = key_of(letters) else {
        return STRANGE;
    };
    number_if_done(&acted(lobby, session, &LobbyAct::List { which, name, on }))
}

/// Whether the first so many numbered names are put on the list, each without a refusal.
fn names_numbered(lobby: &mut Lobby, session: u32, which: WhichList, count: u32) -> bool {
    for n in 0..count {
        if naming(lobby, session, which, &numbered(n), true) != DONE {
            return false;
        }
    }
    true
}

fn is_outside(lobby: &mut Lobby, session: u32) -> bool {
    number_of(&acted(lobby, session, &LobbyAct::Pending)) == 54
        && number_of(&acted(lobby, session, &LobbyAct::Games)) == 54
}
