//! A server with two seated players, and the acts that its sessions make there.

ghost use Rattle.one_server.specs.Acts.{FitsAct};

use crate::short::ShortSeat;
use chess_model::{Colour, Terms, Variant};
use clock_ledger::Moment;
use fics_words::{Fail, Handle};
use histories::Entry;
use linked_desk::DeskAct;
use lobby_state::{LobbyAct, PairAct};
use one_server::{Act, OneServer, Reply, Timed};
use session_core::{Input, Session};
use std::alloc::Global;
use test_server_steps::talk::{Comes, input_of, taken_at};
use test_server_steps::{handle, made, server};

/// What an entry of the history asks for, in short. An act that no test names is another one.
#[derive(Clone, Copy, PartialEq, Eq)]
pub enum Asked {
    Where,
    Lines,
    Going,
    Bye,
    Accept,
    Decline,
    Resume,
    Stored,
    SimOpen,
    SimNext,
    SimPrev,
    GoBoard,
    Clear,
    Move,
    Acked,
    Offer,
    AcceptOffer,
    DeclineOffer,
    Resign,
    Flag,
    News,
    Leave,
    Other,
}

/// Ann, session 1, has White against Ben, session 2.
pub fn seat(server: &mut OneServer) -> Result<(), Fail> {
    let ann = handle(b"Ann")?;
    let ben = handle(b"Ben")?;
    enter(server, 1, ann)?;
    enter(server, 2, ben)?;
    challenge(server, ben)
}

/// Makes an act at moment 0. It ensures nothing, so that nothing above it is proved over what an act does.
pub fn ran(server: &mut OneServer, session: u32, act: Act) -> Result<(), Fail>
    requires { FitsAct act }
{
    let _reply = server.run(session, 0, act)?;
    Ok(())
}

pub fn enter(server: &mut OneServer, session: u32, name: Handle) -> Result<(), Fail> {
    let act = LobbyAct::Enter {
        name: Some(name),
        digest: None,
    };
    ran(server, session, Act::Lobby(act))
}

fn challenge(server: &mut OneServer, ben: Handle) -> Result<(), Fail> {
    let terms = Terms {
        minutes: 2,
        increment: 12,
        variant: Variant::Chess,
        colour: Some(Colour::White),
    };
    let to = ben.key();
    ran(server, 1, Act::Lobby(LobbyAct::Match { to, terms }))?;
    ran(server, 2, Act::Pair(PairAct::Accept(None)))
}

/// A session challenges the player of this name to an untimed game, and the player's session accepts.
pub fn start(server: &mut OneServer, from: u32, other: u32, name: Handle) -> Result<(), Fail> {
    let terms = Terms {
        minutes: 0,
        increment: 0,
        variant: Variant::Chess,
        colour: None,
    };
    let to = name.key();
    ran(server, from, Act::Lobby(LobbyAct::Match { to, terms }))?;
    ran(server, other, Act::Pair(PairAct::Accept(None)))
}

/// A step: the session, the moment in milliseconds, what comes from its player, and the acts that this has to make.
#[derive(Clone, Copy)]
pub struct Step<'a>(pub u32, pub u32, pub Comes, pub &'a [Asked]);

/// The place of the first step that makes other acts, if one does. Each is taken by a session that has entered and was
/// told nothing yet.
pub fn first_failing(alloc: Global, server: &mut OneServer, steps: &[Step<'_>]) -> Option<usize> {
    for (place, step) in steps.iter().enumerate() {
        let start = made(server);
        if takes(alloc, server, step.0, step.1, step.2).is_err() {
            return Some(place);
        }
        if first_differing(server, start, step.0, step.1, step.3).is_some() {
            return Some(place);
        }
    }
    None
}

/// The same at a new server with both players seated.
pub fn first_failing_anew(alloc: Global, steps: &[Step<'_>]) -> Result<Option<usize>, Fail> {
    let mut server = server(alloc)?;
    first_failing_once_seated(alloc, &mut server, steps)
}

fn first_failing_once_seated(
    alloc: Global,
    server: &mut OneServer,
    steps: &[Step<'_>],
) -> Result<Option<usize>, Fail> {
    seat(server)?;
    Ok(first_failing(alloc, server, steps))
}

/// What a session writes for what comes from its player.
pub fn takes(
    alloc: Global,
    server: &mut OneServer,
    session: u32,
    moment: u32,
    comes: Comes,
) -> Result<Vec<u8>, Fail> {
    let mut entered = Session::seated(alloc, handle(b"Ann")?);
    let input = input_of(alloc, comes)?;
    taken_at(server, session, &mut entered, moment, input)
}

/// The session leaves at this moment.
pub fn leaves(
    alloc: Global,
    server: &mut OneServer,
    session: u32,
    moment: u32,
) -> Result<(), Fail> {
    let mut entered = Session::seated(alloc, handle(b"Ann")?);
    entered.leave(&mut server.seat(session), Moment::new(u64::from(moment)))?;
    Ok(())
}

/// The session makes a round, and leaves at a seat at which the act of leaving behind `before` others meets want of
/// memory; the answer says whether leaving met it.
pub fn leaves_short(
    alloc: Global,
    server: &mut OneServer,
    session: u32,
    moment: u32,
    before: u32,
) -> Result<bool, Fail> {
    let mut entered = Session::seated(alloc, handle(b"Ann")?);
    let _news = taken_at(server, session, &mut entered, moment, Input::Quiet)?;
    let mut seat = ShortSeat::new(server, session, before);
    Ok(
        entered
            .leave(&mut seat, Moment::new(u64::from(moment)))
            .is_err(),
    )
}

/// The acts that were made.
fn history(server: &OneServer) -> &[Entry<Timed, Reply>] {
    server.history()
}

/// The place of the first entry from `start` on that isn't the session's at this moment with this act, if one is, or
/// where there are more or fewer entries the length of the history.
pub fn first_differing(
    server: &OneServer,
    start: usize,
    session: u32,
    moment: u32,
    acts: &[Asked],
) -> Option<usize> {
    let history = history(server);
    for (place, entry) in history.iter().enumerate() {
        if place >= start && !is_entry(entry, session, moment, acts.get(place - start)) {
            return Some(place);
        }
    }
    if history.len() >= start && history.len() - start == acts.len() {
        None
    } else {
        Some(history.len())
    }
}

/// Whether an entry is the session's at this moment with this act.
fn is_entry(
    entry: &Entry<Timed, Reply>,
    session: u32,
    moment: u32,
    expected: Option<&Asked>,
) -> bool {
    match expected {
        Some(asked) => {
            entry.session == session
                && entry.act.moment == u64::from(moment)
                && in_short(&entry.act.act) == *asked
        }
        None => false,
    }
}

fn in_short(act: &Act) -> Asked {
    match act {
        Act::Lobby(act) => in_lobby(act),
        Act::Desk { act, .. } => at_desk(act),
        Act::Pair(PairAct::Clear { .. }) => Asked::Clear,
        Act::Pair(PairAct::Accept(_)) => Asked::Accept,
        Act::Pair(PairAct::Resume(_)) => Asked::Resume,
        Act::Pair(_) => Asked::Other,
    }
}

fn in_lobby(act: &LobbyAct) -> Asked {
    match act {
        LobbyAct::Where => Asked::Where,
        LobbyAct::Fetch => Asked::Lines,
        LobbyAct::Going => Asked::Going,
        LobbyAct::Bye => Asked::Bye,
        LobbyAct::Decline { .. } => Asked::Decline,
        LobbyAct::Stored => Asked::Stored,
        _ => of_a_simul(act),
    }
}

fn of_a_simul(act: &LobbyAct) -> Asked {
    match act {
        LobbyAct::SimOpen => Asked::SimOpen,
        LobbyAct::SimNext => Asked::SimNext,
        LobbyAct::SimPrev => Asked::SimPrev,
        LobbyAct::GoBoard { .. } => Asked::GoBoard,
        _ => Asked::Other,
    }
}

fn at_desk(act: &DeskAct) -> Asked {
    match act {
        DeskAct::Move { .. } => Asked::Move,
        DeskAct::Acked { .. } => Asked::Acked,
        DeskAct::Make { .. } => Asked::Offer,
        DeskAct::Accept => Asked::AcceptOffer,
        DeskAct::Decline => Asked::DeclineOffer,
        DeskAct::Fetch => Asked::News,
        _ => at_an_end(act),
    }
}

fn at_an_end(act: &DeskAct) -> Asked {
    match act {
        DeskAct::Resign => Asked::Resign,
        DeskAct::Flag => Asked::Flag,
        DeskAct::Leave => Asked::Leave,
        _ => Asked::Other,
    }
}
