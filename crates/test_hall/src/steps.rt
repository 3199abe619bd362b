//! Steps of sessions, each with its expected reply.

ghost use Rattle.std.specs.Prelude.{IfOk};
ghost use Rattle.linked_desk.specs.Acts.{FitsDeskAct};
ghost use Rattle.one_server.specs.Acts.{FitsAct};

use chess_model::{Colour, MoveWord, Terms, Variant};
use clock_ledger::Moment;
use fics_words::{DeskNumber, Fail};
use linked_desk::DeskAct;
use lobby_state::{LobbyAct, PairAct};
use one_server::{Act, Reply, Runner, answered};
use std::alloc::Global;
use test_server_steps::{Said, handle, in_short, square};

/// What a session does. Desk acts and Clears are for a game.
#[derive(Clone, Copy)]
pub enum Does {
    Enter([u8; 3]),
    /// Challenges this player to a game of chess of 2 minutes and 12 seconds with White.
    Match([u8; 3]),
    Where,
    Lines,
    /// Accepts the oldest challenge.
    Accept,
    Clear,
    /// Moves from a square to another.
    Move(u8, u8),
    Resign,
    Flag,
    Items,
    /// Offers a game of chess of 5 minutes to whoever takes it.
    Seek,
    /// Asks where the game of this number is played.
    FindGame(u16),
    Watch,
    Show,
    /// Begins to leave.
    Going,
    Leave,
    /// Is gone.
    Bye,
    Who,
    Sought,
    Games,
}

/// A game: the first one that starts is at desk 1 under serial 1, the second at desk 2 under serial 2.
#[derive(Clone, Copy)]
pub enum Game {
    First,
    Second,
}

impl Game {
    /// The game of a session: the sessions 1 and 2 play the first one, and all others the second.
    pub fn of(session: u32) -> Game {
        if session == 1 || session == 2 {
            return Game::First;
        }
        Game::Second
    }

    /// The game of the others.
    pub fn other(self) -> Game {
        match self {
            Game::First => Game::Second,
            Game::Second => Game::First,
        }
    }

    /// Its desk, whose number is its serial too.
    fn desk(self) -> DeskNumber {
        match self {
            Game::First => DeskNumber::new(1),
            Game::Second => DeskNumber::new(2),
        }
    }
}

/// A step: the moment in milliseconds, the session, what it does, and what it has to be replied.
#[derive(Clone, Copy)]
pub struct Step(pub u32, pub u32, pub Does, pub Said);

/// What a session is replied.
pub fn reply_to<R: Runner>(
    seat: &mut R,
    alloc: Global,
    moment: u32,
    game: Game,
    does: Does,
) -> Result<Reply, Fail> {
    let act = act_of(game, does)?;
    let reply = answered(seat, alloc, Moment::new(u64::from(moment)), act)?;
    Ok(reply)
}

/// What a session is replied in short.
pub fn replied<R: Runner>(
    seat: &mut R,
    alloc: Global,
    moment: u32,
    game: Game,
    does: Does,
) -> Result<Said, Fail> {
    let reply = reply_to(seat, alloc, moment, game, does)?;
    Ok(in_short(&reply))
}

/// The act of what a session does.
pub fn act_of(game: Game, does: Does) -> Result<Act, Fail>
    ensures { IfOk result FitsAct }
{
    match does {
        Does::Enter(name) => entering(&name),
        Does::Match(to) => challenging(&to),
        Does::Where => Ok(Act::Lobby(LobbyAct::Where)),
        Does::Lines => Ok(Act::Lobby(LobbyAct::Fetch)),
        Does::Accept => Ok(Act::Pair(PairAct::Accept(None))),
        Does::Clear => Ok(clearing(game)),
        Does::Move(from, to) => moving(game, from, to),
        Does::Resign => Ok(at_desk(game, DeskAct::Resign)),
        Does::Flag => Ok(at_desk(game, DeskAct::Flag)),
        Does::Items => Ok(at_desk(game, DeskAct::Fetch)),
        Does::Watch => Ok(at_desk(game, DeskAct::Watch)),
        Does::Show => Ok(at_desk(game, DeskAct::Show)),
        Does::Leave => Ok(at_desk(game, DeskAct::Leave)),
        Does::Seek => Ok(seeking()),
        Does::FindGame(number) => Ok(Act::Lobby(LobbyAct::FindGame { number })),
        Does::Going => Ok(Act::Lobby(LobbyAct::Going)),
        Does::Bye => Ok(Act::Lobby(LobbyAct::Bye)),
        Does::Who => Ok(Act::Lobby(LobbyAct::Who)),
        Does::Sought => Ok(Act::Lobby(LobbyAct::Sought)),
        Does::Games => Ok(Act::Lobby(LobbyAct::Games)),
    }
}

/// Enters under a name.
fn entering(name: &[u8; 3]) -> Result<Act, Fail>
    ensures { IfOk result FitsAct }
{
    let name = handle(name)?;
    Ok(Act::Lobby(LobbyAct::Enter {
        name: Some(name),
        digest: None,
    }))
}

fn challenging(name: &[u8; 3]) -> Result<Act, Fail>
    ensures { IfOk result FitsAct }
{
    let to = handle(name)?.key();
    let terms = Terms {
        minutes: 2,
        increment: 12,
        variant: Variant::Chess,
        colour: Some(Colour::White),
    };
    Ok(Act::Lobby(LobbyAct::Match { to, terms }))
}

fn seeking() -> Act
    ensures { FitsAct result }
{
    let terms = Terms {
        minutes: 5,
        increment: 0,
        variant: Variant::Chess,
        colour: None,
    };
    Act::Lobby(LobbyAct::Post { terms })
}

fn clearing(game: Game) -> Act
    ensures { FitsAct result }
{
    let desk = game.desk();
    Act::Pair(PairAct::Clear {
        desk,
        serial: u64::from(desk.get()),
    })
}

fn moving(game: Game, from: u8, to: u8) -> Result<Act, Fail>
    ensures { IfOk result FitsAct }
{
    let word = MoveWord::Coordinate {
        from: square(from)?,
        to: square(to)?,
        promo: None,
    };
    Ok(at_desk(game, DeskAct::Move { word, stamp: None }))
}

fn at_desk(game: Game, act: DeskAct) -> Act
    requires { FitsDeskAct act }
    ensures { FitsAct result }
{
    let desk = game.desk();
    Act::Desk {
        desk,
        serial: u64::from(desk.get()),
        act,
    }
}
