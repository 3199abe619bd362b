//! Steps of seeks, each with its expected answer.

ghost use Rattle.lobby_state.specs.Acts.{FitsLobby};

use crate::steps::{DONE, Step, acted, are_terms, hall, is_as_expected, lists_ahead, number_of};
use chess_model::{Colour, Terms, Variant};
use fics_words::{Fail, Lines, Refusal};
use lobby_state::{Lobby, LobbyAct, LobbyReply, PairAct, Plan};
use memory::NoMemory;
use std::alloc::Global;
use test_steps::first_wrong;

/// Chess of 5 minutes, in which the seeker asks for White.
pub const WHITE: Terms = Terms {
    minutes: 5,
    increment: 0,
    variant: Variant::Chess,
    colour: Some(Colour::White),
};

/// A step: the session that makes it, what it does, and what it has to answer; where a number may be that of a refusal
/// it stands last, and 0 for none.
#[derive(Clone, Copy)]
pub enum Seeking {
    /// Posts a seek, which gets this number.
    Post(u32, Terms, u16, u8),
    Unpost(u32, Option<u16>, u8),
    /// The seeks are these lines.
    Sought(u32, &'static [&'static [u8]]),
    /// The members are these.
    Who(u32, &'static [&'static [u8]]),
    /// Asks for a list without being a member.
    Outside(u32),
    /// Asks for the plan of taking this seek, and doesn't carry it out.
    Ask(u32, u16, u8),
    /// A step of another kind.
    Other(Step),
}

/// The place of the first step that answers otherwise, if one does.
pub fn first_failing_seek(lobby: &mut Lobby, steps: &[Seeking]) -> Option<usize> {
    first_wrong!(steps, |step| answers(lobby, step))
}

/// The same at a new lobby.
pub fn first_failing_seek_anew(
    alloc: Global,
    steps: &[Seeking],
) -> Result<Option<usize>, NoMemory> {
    let mut lobby = hall(alloc)?;
    Ok(first_failing_seek(&mut lobby, steps))
}

fn answers(lobby: &mut Lobby, step: &Seeking) -> bool {
    match step {
        Seeking::Post(session, terms, number, refusal) => {
            posts(lobby, *session, *terms, *number, *refusal)
        }
        Seeking::Unpost(session, number, refusal) => {
            unposting(lobby, *session, *number) == *refusal
        }
        Seeking::Sought(session, rows) => tells(lobby, *session, &LobbyAct::Sought, rows),
        Seeking::Who(session, rows) => tells(lobby, *session, &LobbyAct::Who, rows),
        Seeking::Outside(session) => is_outside(lobby, *session),
        Seeking::Ask(session, number, refusal) => playing(lobby, *session, *number) == *refusal,
        Seeking::Other(step) => is_as_expected(lobby, step),
    }
}

/// Posts a seek, and says whether the answer is this number, or this refusal.
pub fn posts(lobby: &mut Lobby, session: u32, terms: Terms, number: u16, refusal: u8) -> bool {
    if !are_terms(&terms) {
        return false;
    }
    is_posted(
        &acted(lobby, session, &LobbyAct::Post { terms }),
        number,
        refusal,
    )
}

/// Whether the answer is this number, or this refusal.
fn is_posted(answer: &Result<LobbyReply, Fail>, number: u16, refusal: u8) -> bool {
    match answer {
        Ok(LobbyReply::Number(got)) => refusal == DONE && *got == number,
        Ok(_) => false,
        Err(_) => number_of(answer) == refusal,
    }
}

fn unposting(lobby: &mut Lobby, session: u32, number: Option<u16>) -> u8 {
    number_of(&acted(lobby, session, &LobbyAct::Unpost { number }))
}

/// Asks for a list, and says whether it is these lines, and those of which a copy was made before.
pub fn tells(lobby: &mut Lobby, session: u32, act: &LobbyAct, rows: &[&[u8]]) -> bool
    requires { FitsLobby act.now }
{
    let Ok(ahead) = lists_ahead(lobby, session, act) else {
        return false;
    };
    match acted(lobby, session, act) {
        Ok(LobbyReply::Lines(lines)) => lines == ahead.lines && are_rows(&lines, rows),
        _ => false,
    }
}

fn are_rows(lines: &Lines, rows: &[&[u8]]) -> bool {
    if lines.len() != rows.len() {
        return false;
    }
    for place in 0..lines.len() {
        if lines.get(place) != Some(rows[place]) {
            return false;
        }
    }
    true
}

fn is_outside(lobby: &mut Lobby, session: u32) -> bool {
    number_of(&acted(lobby, session, &LobbyAct::Sought)) == 54
        && number_of(&acted(lobby, session, &LobbyAct::Who)) == 54
}

/// Asks for the plan of taking a seek.
pub fn playing(lobby: &Lobby, session: u32, number: u16) -> u8 {
    match taking(lobby, session, number) {
        Ok(_) => DONE,
        Err(refusal) => refusal.number(),
    }
}

fn taking(lobby: &Lobby, session: u32, number: u16) -> Result<Plan, Refusal> {
    lobby.plan(session, &PairAct::Play(number))
}
