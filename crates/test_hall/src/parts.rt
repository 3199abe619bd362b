//! Whether the parts that a hall gives back at its close are those of a server of one thread.

use crate::replies::is_same;
use crate::steps::{Does, Game, act_of};
use clock_ledger::Moment;
use fics_words::{BoardNumber, DeskNumber, Fail as Failure, Refusal};
use game_board::GameBoard;
use hall_core::HallParts;
use linked_desk::Desk;
use lobby_state::DESKS;
use one_server::{Act, OneServer, Reply, answered};
use std::alloc::Global;

/// When it is asked what stands, in milliseconds.
const MOMENT: u64 = 60_000;

/// A question: who asks, and what.
type Question = (u32, Does);

/// What the lobby and the desks of both games are asked: who is there, which seeks stand and which games there are,
/// what each player is still to be told, and the boards. Cat is there at the end of each schedule.
pub const QUESTIONS: &[Question] = &[
    (3, Does::Who),
    (3, Does::Sought),
    (3, Does::Games),
    (1, Does::Lines),
    (2, Does::Lines),
    (3, Does::Lines),
    (4, Does::Lines),
    (5, Does::Lines),
    (6, Does::Lines),
    (1, Does::Show),
    (1, Does::Items),
    (2, Does::Items),
    (3, Does::Show),
    (3, Does::Items),
    (5, Does::Items),
    (6, Does::Items),
];

/// Where the parts of a hall differ from those of a server of one thread.
#[derive(Clone, Copy, PartialEq, Eq)]
pub enum Difference {
    /// The question at this place is answered otherwise.
    Answer(usize),
    /// The desk of that number has another game.
    Desk(u8),
    /// There are so many desks.
    Count(usize),
}

/// The first difference, if there is one.
pub fn first_difference(
    alloc: Global,
    parts: &mut HallParts,
    server: &mut OneServer,
    questions: &[Question],
) -> Result<Option<Difference>, Failure> {
    if let Some(found) = other_desk(&parts.desks, server) {
        return Ok(Some(found));
    }
    for (place, question) in questions.iter().enumerate() {
        let answer = answer_of_parts(parts, *question)?;
        let expected = answer_of_server(alloc, server, *question)?;
        if !is_same(&answer, &expected) {
            return Ok(Some(Difference::Answer(place)));
        }
    }
    Ok(None)
}

/// The first desk that has another game, or the count of the desks where there aren't as many.
fn other_desk(desks: &Vec<Desk>, server: &OneServer) -> Option<Difference> {
    if desks.len() != DESKS {
        return Some(Difference::Count(desks.len()));
    }
    for (slot, desk) in desks.iter().enumerate() {
        if slot < DESKS {
            let number = DeskNumber::new(slot as u8 + 1);
            if !is_desk_of(desk, server, number) {
                return Some(Difference::Desk(number.get()));
            }
        }
    }
    None
}

/// Whether a desk has the game that the desk of that number has there.
fn is_desk_of(desk: &Desk, server: &OneServer, number: DeskNumber) -> bool {
    let other = server.desk(number);
    let first = BoardNumber::First;
    desk.serial() == other.serial()
        && desk.ended() == other.ended()
        && desk.viewers() == other.viewers()
        && is_same_board(desk.board(first), other.board(first))
}

/// Whether two boards have the same half-moves with the same charges; both may be absent.
fn is_same_board(one: Option<&GameBoard>, other: Option<&GameBoard>) -> bool {
    match one {
        None => other.is_none(),
        Some(one) => match other {
            None => false,
            Some(other) => one.list() == other.list(),
        },
    }
}

/// What the parts of a hall answer.
fn answer_of_parts(parts: &mut HallParts, question: Question) -> Result<Reply, Failure> {
    let (session, does) = question;
    let answer = match act_of(Game::of(session), does)? {
        Act::Lobby(act) => parts.lobby.act(session, MOMENT, &act).map(Reply::Lobby),
        Act::Desk { desk, serial, act } => {
            let Some(desk) = parts.desks.get_mut(desk.place()) else {
                return Err(Failure::Refused(Refusal::NoSuchGame));
            };
            desk.act(session, Moment::new(MOMENT), serial, &act)
                .map(Reply::Desk)
        }
        Act::Pair(_) => return Err(Failure::Refused(Refusal::NoSuchGame)),
    };
    match answer {
        Err(Failure::Refused(cause)) => Ok(Reply::Refused(cause)),
        answer => answer,
    }
}

/// What the server of one thread answers.
fn answer_of_server(
    alloc: Global,
    server: &mut OneServer,
    question: Question,
) -> Result<Reply, Failure> {
    let (session, does) = question;
    let act = act_of(Game::of(session), does)?;
    let mut seat = server.seat(session);
    Ok(answered(&mut seat, alloc, Moment::new(MOMENT), act)?)
}
